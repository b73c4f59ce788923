//! The sums of all campaigns.

ghost use Rattle.std.specs.Prelude.{◌≡◌, ℕ, ◌+◌, ◌^◌};
ghost use Rattle.ad_reports.specs.Totals.{AreOf, totals_of, with_row};

use desk_types::CampaignDay;

/// The numbers of campaigns, added up.
#[derive(Clone, Copy)]
pub(crate) struct Totals {
    pub budget: u128,
    pub shown: u128,
    pub clicks: u128,
    pub spent: u128,
    pub escrowed: u128,
    pub free: u128,
    pub credited: u128,
}

/// The sums of these campaigns.
pub(crate) fn totals_of(rows: &[CampaignDay]) -> Totals
    ensures { result ≡ totals_of rows.now }
{
    let mut totals = Totals {
        budget: 0,
        shown: 0,
        clicks: 0,
        spent: 0,
        escrowed: 0,
        free: 0,
        credited: 0,
    };
    for row in rows {
        totals = with_row(totals, row);
    }
    totals
}

/// The sums with the numbers of one more campaign.
fn with_row(totals: Totals, row: &CampaignDay) -> Totals
    requires few { AreOf (2 ^ 63) totals }
    ensures sums { result ≡ with_row totals row.now }
    ensures one_more { (n : ℕ) → AreOf n totals → AreOf (n + 1) result }
{
    Totals {
        budget: totals.budget + u128::from(row.budget),
        shown: totals.shown + u128::from(row.shown),
        clicks: totals.clicks + u128::from(row.clicks),
        spent: totals.spent + u128::from(row.spent),
        escrowed: totals.escrowed + u128::from(row.escrowed),
        free: totals.free + u128::from(row.free),
        credited: totals.credited + u128::from(row.credited),
    }
}
