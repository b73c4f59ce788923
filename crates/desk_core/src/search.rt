//! Searches.

ghost use Rattle.std.specs.Prelude.{◌≡◌, ◌+◌, ◌≤◌, ℕ, Option, None, length, is_none, nat_le, All, IfOk, OnOk, IfErr, IfSome};
ghost use Rattle.query_words.specs.Limits.{IsWithinLimits};
ghost use Rattle.query_words.specs.Words.{words_of};
ghost use Rattle.desk_types.specs.Changes.{placements_for};
ghost use Rattle.desk_types.specs.Eligible.{entrants_for};
ghost use Rattle.desk_types.specs.Judged.{is_bad_places, judged, places_of};
ghost use Rattle.desk_types.specs.SettingsValue.{IsPlaces};
ghost use Rattle.desk_types.specs.State.{State};
ghost use Rattle.desk_types.specs.Sound.{IsSound};
ghost use Rattle.rank_core.specs.Ranked.{ranked};
ghost use Rattle.desk_core.specs.Planned.{IsPlanned, IsStop};
ghost use Rattle.desk_core.specs.Shown.{HasLine};
ghost use Rattle.placements.specs.PlacementsValue.{AreNext};

use crate::ledger::Ledger;
use crate::plan::{Changes, Plan};
use crate::stop::Stop;
use crate::told::Told;
use arrayvec::ArrayVec;
use auction_types::limits::PLACES_MAX;
use desk_types::{Call, Field, Placement, Refusal, Reply};
use query_words::{List, Text, Words, WordsError, words};
use rank_core::{Ranked, page_of};
use std::alloc::{AllocError, Global};

impl Ledger {
    /// Plans a search: each place of the page for the text, of 1 to 8 places or as many as the settings
    /// have, gets a placement.
    #[tactic(auto, unfolding(desk_types::specs::Changes::changes, desk_types::specs::Changes::raises_edition, desk_types::specs::Changes::reply))]
    pub(crate) fn plan_search(&self, text: &Text, places: Option<u64>) -> Result<Plan, Stop>
        requires sound { IsSound self.now.state }
        ensures planned { IfOk result (IsPlanned self.now.state (Call.Search text.now places)) }
        ensures stopped { IfErr result (IsStop self.now.state (Call.Search text.now places)) }
    {
        let placements = self.placements_for(text, places)?;
        let spots = self.spots(&placements)?;
        Ok(Plan {
            changes: Changes::Placed(List::from_vec(placements)),
            told: Told::Page(List::from_vec(spots)),
        })
    }

    /// The placements that a search puts.
    fn placements_for(&self, text: &Text, places: Option<u64>) -> Result<Vec<Placement>, Stop>
        requires sound { IsSound self.now.state }
        ensures not_refused { OnOk result (judged self.now.state (Call.Search text.now places) ≡ None) }
        ensures placements { IfOk result (λ new. new.items ≡ placements_for self.now.state text.now places) }
        ensures lines { IfOk result (λ new. All (HasLine self.now.state.tables) new.items) }
        ensures next { IfOk result (λ new. AreNext self.now.state.tables.placements new.items) }
        ensures stopped { IfErr result (IsStop self.now.state (Call.Search text.now places)) }
    {
        let query = words_of(self.alloc(), text)?;
        let Some(count) = self.places_of(places) else {
            return Err(Stop::Refused(Refusal::BadField(Field::Places)));
        };
        let page = self.page(&query, count)?;
        if !self.has_room(page.len()) {
            return Err(Stop::Refused(Refusal::PlacementsFull));
        }
        Ok(self.placed(page.as_slice())?)
    }

    /// The number of places that a search asks for, or else that of the settings; `None` where it is
    /// out of range.
    fn places_of(&self, places: Option<u64>) -> Option<u64>
        ensures bad { is_none result ≡ is_bad_places places }
        ensures value { IfSome result (λ count. count ≡ places_of self.now.state places) }
        ensures in_range { IfSome result IsPlaces }
    {
        match places {
            None => Some(self.settings.places()),
            Some(count) if (1..=PLACES_MAX).contains(&count) => Some(count),
            Some(_) => None,
        }
    }

    /// The page for the words of a query, each entrant with the one next below it.
    fn page(&self, query: &Words, places: u64) -> Result<ArrayVec<Ranked, 8>, AllocError>
        requires sound { IsSound self.now.state }
        requires places { IsPlaces places }
        ensures { IfOk result (λ page. page.items ≡ ranked (entrants_for self.now.state query.now) places) }
    {
        let ads = self.eligible_ads(query)?;
        Ok(page_of(&ads, places))
    }

    /// Whether there may be this many more placements.
    fn has_room(&self, more: usize) -> bool
        requires { more ≤ PLACES_MAX }
        ensures { result ≡ nat_le (length self.now.state.tables.placements + more) self.now.state.settings.placements }
    {
        self.placements.count() + more as u64 <= self.settings.placements()
    }
}

/// The words of a query, or why it is refused.
fn words_of(alloc: Global, text: &Text) -> Result<Words, Stop>
    ensures words { IfOk result (λ words. words ≡ words_of text.now) }
    ensures fits { OnOk result (IsWithinLimits text.now) }
    ensures stopped { IfErr result (λ stop.
        (S : State) (places : Option ℕ) → IsStop S (Call.Search text.now places) stop) }
{
    match words(alloc, text.as_str()) {
        Ok(found) => Ok(found),
        Err(WordsError::TooLong(bytes)) => Err(Stop::Refused(Refusal::QueryTooLong(bytes))),
        Err(WordsError::TooMany(count)) => Err(Stop::Refused(Refusal::QueryTooMany(count))),
        Err(WordsError::NoMemory) => Err(Stop::NoMemory),
    }
}
