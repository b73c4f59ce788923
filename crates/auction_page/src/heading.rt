//! What the first line of an auction spells.

ghost use Rattle.std.specs.Prelude.{◌≡◌};
ghost use Rattle.desk_types.specs.SettingsValue.{IsReserve, IsFloor, IsPlaces};

use std::marker::Model;

/// The conditions of an auction: the reserve is 1 to 1,000,000 cents, the floor is a score of 0 to
/// 100,000,000, and the places are 1 to 8.
#[derive(Clone, Copy, Debug, PartialEq, Eq)]
pub struct Heading {
    reserve: u64,
    floor: u64,
    places: u64,
}

impl Model for Heading {
    ghost use Rattle.auction_page.specs.HeadingValue.{HeadingValue, IsHeading};

    ghost Value = { HeadingValue };

    ghost view = { λ h. record { reserve = h.reserve; floor = h.floor; places = h.places } };

    ghost invariant = { λ h. IsHeading (record { reserve = h.reserve; floor = h.floor; places = h.places }) };

    ghost inverse = { λ v. record { reserve = v.reserve; floor = v.floor; places = v.places } };
}

impl Heading {
    /// The heading of three numbers, each of which is in range.
    pub fn new(reserve: u64, floor: u64, places: u64) -> Heading
        requires reserve { IsReserve reserve }
        requires floor { IsFloor floor }
        requires places { IsPlaces places }
        ensures { result ≡ record { reserve = reserve; floor = floor; places = places } }
    {
        Heading {
            reserve,
            floor,
            places,
        }
    }

    /// The least bid that is eligible, in cents.
    pub fn reserve(&self) -> u64
        ensures reserve { result ≡ self.now.reserve }
        ensures in_range { IsReserve result }
    {
        self.reserve
    }

    /// The least score that is eligible.
    pub fn floor(&self) -> u64
        ensures floor { result ≡ self.now.floor }
        ensures in_range { IsFloor result }
    {
        self.floor
    }

    /// The number of places.
    pub fn places(&self) -> u64
        ensures places { result ≡ self.now.places }
        ensures in_range { IsPlaces result }
    {
        self.places
    }
}
