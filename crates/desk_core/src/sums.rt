//! Counts and sums over the placements of a campaign on a day.

ghost use Rattle.std.specs.Prelude.{◌≡◌, ◌∷◌, [], ◌+◌, ◌<◌, ◌^◌, ℕ, length};
ghost use Rattle.desk_core.specs.Sums.{AreOf, both, sums_of};

use crate::money::{CampaignAndDay, is_shown_on};
use desk_types::{Fate, Placement};
use placements::ShownOn;

/// Counts of placements, and sums of their prices in cents.
#[derive(Clone, Copy)]
pub(crate) struct Sums {
    /// How many were shown.
    pub shown: u64,
    /// How many of them a click settled.
    pub clicks: u64,
    /// Their prices.
    pub spent: u128,
    /// The prices that are escrowed.
    pub escrowed: u128,
    /// The prices that the host credited.
    pub credited: u128,
}

/// Those of these placements that are of the campaign and were shown on the day, at a moment in seconds.
pub(crate) fn sums_of(placements: ShownOn<'_>, of: CampaignAndDay, moment: u64) -> Sums
    requires { length placements < 2 ^ 63 }
    ensures { result ≡ sums_of of.account of.campaign of.day moment placements.entry }
{
    let mut sums = Sums {
        shown: 0,
        clicks: 0,
        spent: 0,
        escrowed: 0,
        credited: 0,
    };
    for placement in placements {
        sums = counted(sums, placement, of, moment);
    }
    sums
}

/// Sums with a placement, where it is of the campaign and was shown on the day.
fn counted(sums: Sums, placement: &Placement, of: CampaignAndDay, moment: u64) -> Sums
    requires few { AreOf (2 ^ 63) sums }
    ensures sums { result ≡ both sums (sums_of of.account of.campaign of.day moment (placement.now ∷ [])) }
    ensures one_more { (n : ℕ) → AreOf n sums → AreOf (n + 1) result }
{
    if !is_shown_on(placement, of) {
        return sums;
    }
    let shown = sums.shown + 1;
    let price = u128::from(placement.price);
    match placement.fate {
        Fate::Open if moment < placement.deadline => Sums {
            shown,
            escrowed: sums.escrowed + price,
            ..sums
        },
        Fate::Open => Sums { shown, ..sums },
        Fate::Settled(_) => Sums {
            shown,
            clicks: sums.clicks + 1,
            spent: sums.spent + price,
            ..sums
        },
        Fate::Credited(_, _) => Sums {
            shown,
            clicks: sums.clicks + 1,
            spent: sums.spent + price,
            credited: sums.credited + price,
            ..sums
        },
    }
}
