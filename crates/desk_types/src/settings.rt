//! The settings that a desk is opened with.

ghost use Rattle.std.specs.Prelude.{◌≡◌, ◌↔◌, IsSome, IfSome};
ghost use Rattle.desk_types.specs.SettingsValue.{AreInRange, IsReserve, IsFloor, IsPlaces, IsJournal, IsJournalBytes, IsPlacements, usual};

use crate::limits::{
    JOURNAL_BYTES_MAX, JOURNAL_MAX, JOURNAL_USUAL, PLACEMENTS_MAX, PLACEMENTS_USUAL, PLACES_USUAL,
    RESERVE_USUAL,
};
use auction_types::limits::{BID_MAX, BID_MIN, FLOOR_MAX, PLACES_MAX};
use std::marker::Model;

/// The settings of a desk: reserve, floor, places of a page, and the limits of journal and placements.
#[derive(Clone, Copy, Debug, PartialEq, Eq)]
pub struct Settings {
    reserve: u64,
    floor: u64,
    places: u64,
    journal: u64,
    journal_bytes: u64,
    placements: u64,
}

impl Model for Settings {
    ghost use Rattle.desk_types.specs.SettingsValue.{SettingsValue, AreInRange};

    ghost Value = { SettingsValue };

    ghost view = { λ s. record {
      reserve = s.reserve;
      floor = s.floor;
      places = s.places;
      journal = s.journal;
      journal_bytes = s.journal_bytes;
      placements = s.placements;
    } };

    ghost invariant = { λ s. AreInRange (record {
      reserve = s.reserve;
      floor = s.floor;
      places = s.places;
      journal = s.journal;
      journal_bytes = s.journal_bytes;
      placements = s.placements;
    }) };

    ghost inverse = { λ v. record {
      reserve = v.reserve;
      floor = v.floor;
      places = v.places;
      journal = v.journal;
      journal_bytes = v.journal_bytes;
      placements = v.placements;
    } };
}

impl Settings {
    /// These settings, or `None` where one is out of its range: a reserve of 1 to 1,000,000 cents, a
    /// floor of at most 100,000,000, 1 to 8 places, 1 to 4,000,000 entries of a journal,
    /// 1 to 1,000,000,000 bytes of its texts, and 1 to 2,000,000 placements.
    pub fn new(
        reserve: u64,
        floor: u64,
        places: u64,
        journal: u64,
        journal_bytes: u64,
        placements: u64,
    ) -> Option<Settings>
        ensures in_range { IsSome result ↔ AreInRange (record {
          reserve = reserve;
          floor = floor;
          places = places;
          journal = journal;
          journal_bytes = journal_bytes;
          placements = placements;
        }) }
        ensures made { IfSome result (λ s. s ≡ record {
          reserve = reserve;
          floor = floor;
          places = places;
          journal = journal;
          journal_bytes = journal_bytes;
          placements = placements;
        }) }
    {
        if reserve < BID_MIN
            || reserve > BID_MAX
            || floor > FLOOR_MAX
            || places < 1
            || places > PLACES_MAX
            || journal < 1
            || journal > JOURNAL_MAX
            || journal_bytes < 1
            || journal_bytes > JOURNAL_BYTES_MAX
            || placements < 1
            || placements > PLACEMENTS_MAX
        {
            return None;
        }
        Some(Settings {
            reserve,
            floor,
            places,
            journal,
            journal_bytes,
            placements,
        })
    }

    /// The usual settings: a reserve of 5 cents, no floor, 4 places, a journal of 1,000,000 entries
    /// and 1,000,000,000 bytes, and 1,000,000 placements.
    pub fn usual() -> Settings
        ensures { result ≡ usual }
    {
        Settings {
            reserve: RESERVE_USUAL,
            floor: 0,
            places: PLACES_USUAL,
            journal: JOURNAL_USUAL,
            journal_bytes: JOURNAL_BYTES_MAX,
            placements: PLACEMENTS_USUAL,
        }
    }

    /// The least price of a click, in cents: 1 to 1,000,000.
    pub fn reserve(&self) -> u64
        ensures reserve { result ≡ self.now.reserve }
        ensures in_range { IsReserve result }
    {
        self.reserve
    }

    /// The least score of an ad: at most 100,000,000.
    pub fn floor(&self) -> u64
        ensures floor { result ≡ self.now.floor }
        ensures in_range { IsFloor result }
    {
        self.floor
    }

    /// The places of a page where a search gives none: 1 to 8.
    pub fn places(&self) -> u64
        ensures places { result ≡ self.now.places }
        ensures in_range { IsPlaces result }
    {
        self.places
    }

    /// The most entries of the journal: 1 to 4,000,000.
    pub fn journal(&self) -> u64
        ensures journal { result ≡ self.now.journal }
        ensures in_range { IsJournal result }
    {
        self.journal
    }

    /// The most bytes of the texts in the journal: 1 to 1,000,000,000.
    pub fn journal_bytes(&self) -> u64
        ensures journal_bytes { result ≡ self.now.journal_bytes }
        ensures in_range { IsJournalBytes result }
    {
        self.journal_bytes
    }

    /// The most placements: 1 to 2,000,000.
    pub fn placements(&self) -> u64
        ensures placements { result ≡ self.now.placements }
        ensures in_range { IsPlacements result }
    {
        self.placements
    }
}
