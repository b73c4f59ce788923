//! The page over a list of ads.

ghost use Rattle.auction_types.specs.Page.{AreOfDifferentAccounts, entrants};
ghost use Rattle.auction_types.specs.declared.limits.TheConstants.{PLACES_MAX};
ghost use Rattle.rank_core.specs.Nexts.{each_with_next};
ghost use Rattle.rank_core.specs.Ranked.{IsRankedAmong, ranked};
ghost use Rattle.rank_core.specs.Top.{IsTopOf};
ghost use Rattle.std.specs.Prelude.{◌≡◌, ◌≤◌, take, All};

use crate::top::Top;
use arrayvec::ArrayVec;
use auction_types::Ad;

/// An ad on the page, and the entrant next below it, if there is one.
#[derive(Clone, Copy, Debug, PartialEq, Eq, Default)]
pub struct Ranked {
    /// The ad.
    pub ad: Ad,
    /// The entrant whose place is the next.
    pub next: Option<Ad>,
}

/// The page for 1 to 8 places: the best ad of each account competes, and the first `places` of them
/// are given in order of place, each with the entrant next below it. It takes no memory.
pub fn page_of(ads: &[Ad], places: u64) -> ArrayVec<Ranked, 8>
    requires places { (1 ≤ places) × (places ≤ PLACES_MAX) }
    ensures page { result.items ≡ ranked (entrants ads.now) places }
    ensures each { All (IsRankedAmong ads.now) result.items }
    ensures different_accounts { AreOfDifferentAccounts (entrants ads.now) }
{
    top_of(ads).page(places)
}

/// The best entrants of the ads.
fn top_of(ads: &[Ad]) -> Top
    ensures { IsTopOf ads.now result }
{
    let mut top = Top::new();
    for ad in ads {
        top.offer(*ad);
    }
    top
}

/// The first `places` of the list, each with the one that comes next.
pub(crate) fn with_next_below(leading: &[Ad], places: usize) -> ArrayVec<Ranked, 8>
    requires { places ≤ 8 }
    ensures { result.items ≡ take places (each_with_next leading.now) }
{
    let mut page = ArrayVec::new();
    let mut rest = leading;
    for _ in 0..places {
        let Some((ad, below)) = rest.split_first() else {
            return page;
        };
        page.push(Ranked {
            ad: *ad,
            next: below.first().copied(),
        });
        rest = below;
    }
    page
}
