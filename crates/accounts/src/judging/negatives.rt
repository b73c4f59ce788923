//! The judging of negatives.

ghost use Rattle.std.specs.Prelude.{◌≡◌, ℕ, IfErr, IfOk, OnOk, None};
ghost use Rattle.desk_types.specs.declared.call.Call.{Call};
ghost use Rattle.desk_types.specs.declared.tables.Tables.{Tables};
ghost use Rattle.desk_types.specs.Changes.{negative_made};
ghost use Rattle.desk_types.specs.Judged.{first, negative_rows};
ghost use Rattle.accounts.specs.Planned.{IsFirst, IsPlanned, IsStop, state_on};
ghost use Rattle.accounts.specs.Shelved.{HasShelf};

use crate::book::Book;
use crate::plan::{EditFault, Plan, when};
use crate::shelf::Shelf;
use desk_types::limits::NEGATIVES_MAX;
use desk_types::{Change, Negative, Refusal, Reply};
use match_types::Pattern;
use query_words::{NoMemory, Text, Twin};

impl Book {
    /// Plans the dropping of a negative.
    #[tactic(auto, unfolding(desk_types::specs::Judged::refusals, desk_types::specs::Changes::changes, desk_types::specs::Changes::reply), using(crate::proofs::Negatives::live_some, crate::proofs::Negatives::live_none))]
    pub(crate) fn plan_drop(
        &self,
        account: u64,
        key: &Text,
        negative: u64,
    ) -> Result<Plan, EditFault>
        ensures planned { (m : ℕ) → IfOk result
            (IsPlanned (state_on self.now.tables m) (Call.DropNegative account key.now negative)) }
        ensures stopped { (m : ℕ) → IfErr result
            (IsStop (state_on self.now.tables m) (Call.DropNegative account key.now negative)) }
    {
        let shelf = self.owner(account, key)?;
        let Some(found) = shelf.negative(negative) else {
            return Err(EditFault::Refused(Refusal::NoNegative));
        };
        when(!found.live, Refusal::NoNegative)?;
        Ok(Plan::one(
            self.alloc(),
            Change::PutNegative(with_live(found, false)?),
            Reply::Done,
        )?)
    }

    /// Plans a negative: a new one, or the dropped one of the same pattern lives again.
    #[tactic(auto, unfolding(desk_types::specs::Judged::refusals, desk_types::specs::Changes::changes, desk_types::specs::Changes::reply))]
    pub(crate) fn plan_negative(
        &self,
        account: u64,
        key: &Text,
        campaign: u64,
        pattern: &Text,
    ) -> Result<Plan, EditFault>
        ensures planned { (m : ℕ) → IfOk result
            (IsPlanned (state_on self.now.tables m) (Call.AddNegative account key.now campaign pattern.now)) }
        ensures stopped { (m : ℕ) → IfErr result
            (IsStop (state_on self.now.tables m) (Call.AddNegative account key.now campaign pattern.now)) }
    {
        let shelf = self.owner(account, key)?;
        when(shelf.campaign(campaign).is_none(), Refusal::NoCampaign)?;
        let negative = shelf.negative_made(account, campaign, pattern)?;
        let number = negative.number;
        Ok(Plan::one(
            self.alloc(),
            Change::PutNegative(negative),
            Reply::Made(number),
        )?)
    }
}

impl Shelf {
    /// The row of a negative that the account of this number asks for, in a campaign that is there, or why it is refused.
    fn negative_made(&self, account: u64, campaign: u64, text: &Text) -> Result<Negative, EditFault>
        ensures negative { IfOk result (λ row. (T : Tables) → HasShelf T account self.now
            → row ≡ negative_made T account campaign text.now) }
        ensures passed { OnOk result ((T : Tables) → HasShelf T account self.now
            → first (negative_rows T account campaign text.now) ≡ None) }
        ensures stopped { IfErr result (λ fault. (T : Tables) → HasShelf T account self.now
            → IsFirst (negative_rows T account campaign text.now) fault) }
    {
        let pattern = Pattern::read_negative(*self.negatives.allocator(), text.as_str())?;
        if let Some(there) = self.live_negative(campaign, &pattern) {
            return Err(EditFault::Refused(Refusal::NegativeThere(there.number)));
        }
        if let Some(dropped) = self.dropped_negative(campaign, &pattern) {
            return Ok(with_live(dropped, true)?);
        }
        when(
            self.count_negatives() >= NEGATIVES_MAX,
            Refusal::NegativesFull,
        )?;
        Ok(Negative {
            account,
            number: self.count_negatives() + 1,
            campaign,
            pattern,
            live: true,
        })
    }
}

/// The negative, live or dropped as is said.
fn with_live(negative: &Negative, live: bool) -> Result<Negative, NoMemory>
    ensures { IfOk result (λ row. row ≡ record negative.now { live = live }) }
{
    let mut row = negative.twin()?;
    row.live = live;
    Ok(row)
}
