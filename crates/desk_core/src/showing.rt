//! The placements of a page, and what the page shows of them.

ghost use Rattle.std.specs.Prelude.{◌≡◌, ◌+◌, ◌≤◌, List, length, map, All, Contains, IfOk};
ghost use Rattle.auction_types.specs.AdValue.{AdValue};
ghost use Rattle.auction_types.specs.Page.{AreOfDifferentAccounts, next_below, place as the_place};
ghost use Rattle.desk_types.specs.Changes.{all_placed, placed, spot_of};
ghost use Rattle.desk_types.specs.declared.limits.TheConstants.{MOMENT_MAX};
ghost use Rattle.desk_core.specs.Shown.{AreRankedFrom, CanBePriced, HasLine};

use crate::ledger::Ledger;
use desk_types::limits::CLICK_WINDOW;
use desk_types::{Fate, Placement, Spot};
use gsp_price::price;
use query_words::Twin;
use rank_core::Ranked;
use std::alloc::AllocError;

impl Ledger {
    /// The placements of the ads of a page, numbered from the next number on.
    pub(crate) fn placed(&self, page: &[Ranked]) -> Result<Vec<Placement>, AllocError>
        requires moment { self.now.state.moment ≤ MOMENT_MAX }
        requires priced { All (CanBePriced self.now.state) page.now }
        ensures { IfOk result (λ new. (entered : List AdValue) → AreRankedFrom entered page.now
            → let S = self.now.state in
            new.items ≡ all_placed S entered (length S.tables.placements + 1) (map (λ r. r.ad) page.now)) }
    {
        let first = self.placements.count() + 1;
        let mut placements = Vec::with_capacity(self.alloc(), page.len())?;
        for (index, ranked) in page.iter().enumerate() {
            let index = index as u64;
            placements.push(self.placement(first + index, index + 1, ranked))?;
        }
        Ok(placements)
    }

    /// The placement of an ad, with this number and this place.
    fn placement(&self, number: u64, place: u64, ranked: &Ranked) -> Placement
        requires moment { self.now.state.moment ≤ MOMENT_MAX }
        requires priced { CanBePriced self.now.state ranked.now }
        ensures { (entered : List AdValue) → AreOfDifferentAccounts entered → Contains entered ranked.now.ad
            → next_below entered ranked.now.ad ≡ ranked.now.next → the_place entered ranked.now.ad ≡ place
            → result ≡ placed self.now.state entered number ranked.now.ad }
    {
        let ad = &ranked.ad;
        Placement {
            number,
            account: ad.account(),
            campaign: ad.campaign(),
            line: ad.line(),
            place,
            bid: ad.bid(),
            price: price(
                ad,
                ranked.next.as_ref(),
                self.settings.reserve(),
                self.settings.floor(),
            ),
            shown: self.moment,
            deadline: self.moment + CLICK_WINDOW,
            fate: Fate::Open,
        }
    }

    /// What the page shows of these placements.
    pub(crate) fn spots(&self, placements: &[Placement]) -> Result<Vec<Spot>, AllocError>
        requires { All (HasLine self.now.state.tables) placements.now }
        ensures { IfOk result (λ spots. spots.items ≡ map (spot_of self.now.state.tables) placements.now) }
    {
        let mut spots = Vec::with_capacity(self.alloc(), placements.len())?;
        for placement in placements {
            spots.push(self.spot_of(placement)?)?;
        }
        Ok(spots)
    }

    /// What the page shows of a placement.
    fn spot_of(&self, placement: &Placement) -> Result<Spot, AllocError>
        requires { HasLine self.now.state.tables placement.now }
        ensures { IfOk result (λ spot. spot ≡ spot_of self.now.state.tables placement.now) }
    {
        let line = self.line_there(placement.account, placement.line);
        Ok(Spot {
            place: placement.place,
            placement: placement.number,
            account: placement.account,
            campaign: placement.campaign,
            line: placement.line,
            headline: line.headline.twin()?,
            link: line.link.copy(),
            price: placement.price,
        })
    }
}
