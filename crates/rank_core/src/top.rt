//! The list of the best entrants.

ghost use Rattle.std.specs.Prelude.{◌≡◌, ◌≤◌, ◌==◌, ◌∷◌, ◌++◌, [], false, List, All, IfSome, IsTrue, length, option_map, slice_get, take, unwrap_or};
ghost use Rattle.std.specs.List.{list_any};
ghost use Rattle.auction_types.specs.AdValue.{AdValue};
ghost use Rattle.auction_types.specs.Order.{better as is_better};
ghost use Rattle.auction_types.specs.Page.{entrants};
ghost use Rattle.auction_types.specs.declared.limits.TheConstants.{PLACES_MAX};
ghost use Rattle.rank_core.specs.Ranked.{ranked};
ghost use Rattle.rank_core.specs.Top.{IsTopOf};

use crate::page::{Ranked, with_next_below};
use arrayvec::ArrayVec;
use auction_types::limits::{BID_MAX, QUALITY_MAX};
use auction_types::{Ad, better};
use std::marker::Model;

/// The entrants of the ads offered so far that have the first nine places, best first. It takes no memory.
///
/// Contracts see it as the list of these entrants.
#[derive(Debug, Drop)]
pub struct Top {
    leading: ArrayVec<Ad, 9>,
}

impl Model for Top {
    ghost Value = { List AdValue };

    ghost view = { λ t. t.leading.items };
}

impl Top {
    /// Nothing is offered yet.
    pub fn new() -> Top
        ensures { IsTopOf [] result }
    {
        Top {
            leading: ArrayVec::new(),
        }
    }

    /// Offers an ad: it takes the place of its account's entrant where it is better, else nothing changes.
    pub fn offer(&mut self, ad: Ad)
        ensures { (offered : List AdValue) → IsTopOf offered self.old → IsTopOf (offered ++ ad ∷ []) self.new }
    {
        prove!(ad.bid() <= BID_MAX);
        prove!(ad.quality() <= QUALITY_MAX);
        if !self.is_closed_to(&ad) {
            self.put(ad);
        }
    }

    /// The page for 1 to 8 places over the ads offered: the first entrants in order of place, each with the one next below.
    pub fn page(&self, places: u64) -> ArrayVec<Ranked, 8>
        requires places { (1 ≤ places) × (places ≤ PLACES_MAX) }
        ensures { (offered : List AdValue) → IsTopOf offered self.now
            → result.items ≡ ranked (entrants offered) places }
    {
        let places = places as usize;
        let shown = (places + 1).min(self.leading.len());
        with_next_below(&self.leading[..shown], places)
    }

    /// Whether nine entrants stand and the last of them is better than an ad.
    fn is_closed_to(&self, ad: &Ad) -> bool
        ensures { result ≡ unwrap_or (option_map (λ last. is_better last ad.now) (slice_get self.now 8)) false }
    {
        match self.leading.get(8) {
            Some(last) => better(last, ad),
            None => false,
        }
    }

    /// Puts an ad behind the better ones, and takes out a worse one of its account; where a better one is of its
    /// account, or nine are better, nothing changes.
    fn put(&mut self, ad: Ad)
        ensures { (offered : List AdValue) → IsTopOf offered self.old → IsTopOf (offered ++ ad ∷ []) self.new }
    {
        prove!(ad.bid() <= BID_MAX);
        prove!(ad.quality() <= QUALITY_MAX);
        let ahead = ahead_of(self.leading.as_slice(), &ad);
        if ahead >= 9 {
            return;
        }
        if has_account(&self.leading[..ahead], ad.account()) {
            return;
        }
        self.leading.retain(|other| other.account() != ad.account());
        self.leading.truncate(8);
        self.leading.insert(ahead, ad);
    }
}

/// How many ads at the front of the list are better than an ad.
fn ahead_of(leading: &[Ad], ad: &Ad) -> usize
    ensures fits { result ≤ length leading.now }
    ensures ahead { All (λ other. IsTrue (is_better other ad.now)) (take result leading.now) }
    ensures behind { IfSome (slice_get leading.now result) (λ other. is_better other ad.now ≡ false) }
{
    let mut ahead = 0;
    for other in leading {
        if !better(other, ad) {
            return ahead;
        }
        ahead += 1;
    }
    ahead
}

/// Whether an ad of the list is of the account.
fn has_account(ads: &[Ad], account: u64) -> bool
    ensures { result ≡ list_any (λ ad. ad.account == account) ads.now }
{
    ads.iter().any(|ad| ad.account() == account)
}
