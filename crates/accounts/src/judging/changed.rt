//! The judging of changes to lines and campaigns that are there.

ghost use Rattle.std.specs.Prelude.{◌≡◌, ℕ, None, Some, IfErr, IfOk};
ghost use Rattle.desk_types.specs.declared.call.Call.{Call};
ghost use Rattle.desk_types.specs.declared.call.Part.{Part as PartNamed};
ghost use Rattle.desk_types.specs.declared.tables.Tables.{Tables};
ghost use Rattle.desk_types.specs.Tables.{campaign_of, line_of};
ghost use Rattle.accounts.specs.Planned.{IsFirst, IsPlanned, IsStop, state_on};
ghost use Rattle.accounts.specs.Shelved.{HasShelf};

use crate::book::Book;
use crate::plan::{EditFault, Plan, when};
use crate::shelf::Shelf;
use auction_types::limits::{BID_MAX, BID_MIN, QUALITY_MAX, QUALITY_MIN};
use desk_types::{Campaign, Change, Field, Line, Part, Refusal, Reply};
use query_words::{NoMemory, Text, Twin};

impl Book {
    /// Plans the quality of a line.
    #[tactic(auto, unfolding(desk_types::specs::Judged::refusals, desk_types::specs::Changes::changes, desk_types::specs::Changes::reply))]
    pub(crate) fn plan_quality(
        &self,
        account: u64,
        line: u64,
        quality: u64,
    ) -> Result<Plan, EditFault>
        ensures planned { (m : ℕ) → IfOk result
            (IsPlanned (state_on self.now.tables m) (Call.SetQuality account line quality)) }
        ensures stopped { (m : ℕ) → IfErr result
            (IsStop (state_on self.now.tables m) (Call.SetQuality account line quality)) }
    {
        let Some(shelf) = self.shelf(account) else {
            return Err(EditFault::Refused(Refusal::NoAccount));
        };
        let Some(row) = shelf.line(line) else {
            return Err(EditFault::Refused(Refusal::NoLine));
        };
        when(
            !(QUALITY_MIN..=QUALITY_MAX).contains(&quality),
            Refusal::BadField(Field::Quality),
        )?;
        let changed = with_quality(row, quality)?;
        Ok(Plan::one(self.alloc(), Change::PutLine(changed), Reply::Done)?)
    }

    /// Plans the bid of a line.
    #[tactic(auto, unfolding(desk_types::specs::Judged::refusals, desk_types::specs::Changes::changes, desk_types::specs::Changes::reply))]
    pub(crate) fn plan_bid(
        &self,
        account: u64,
        key: &Text,
        line: u64,
        bid: u64,
    ) -> Result<Plan, EditFault>
        ensures planned { (m : ℕ) → IfOk result
            (IsPlanned (state_on self.now.tables m) (Call.SetBid account key.now line bid)) }
        ensures stopped { (m : ℕ) → IfErr result
            (IsStop (state_on self.now.tables m) (Call.SetBid account key.now line bid)) }
    {
        let shelf = self.owner(account, key)?;
        let Some(row) = shelf.line(line) else {
            return Err(EditFault::Refused(Refusal::NoLine));
        };
        when(
            !(BID_MIN..=BID_MAX).contains(&bid),
            Refusal::BadField(Field::Bid),
        )?;
        let changed = with_bid(row, bid)?;
        Ok(Plan::one(self.alloc(), Change::PutLine(changed), Reply::Done)?)
    }

    /// Plans the switch of a campaign or a line.
    pub(crate) fn plan_pause(
        &self,
        account: u64,
        key: &Text,
        part: Part,
        on: bool,
    ) -> Result<Plan, EditFault>
        ensures planned { (m : ℕ) → IfOk result
            (IsPlanned (state_on self.now.tables m) (Call.Pause account key.now part on)) }
        ensures stopped { (m : ℕ) → IfErr result
            (IsStop (state_on self.now.tables m) (Call.Pause account key.now part on)) }
    {
        match part {
            Part::OfCampaign(campaign) => self.plan_campaign_pause(account, key, campaign, on),
            Part::OfLine(line) => self.plan_line_pause(account, key, line, on),
        }
    }

    /// Plans the switch of a campaign, whose lines stay as they are.
    #[tactic(auto, unfolding(desk_types::specs::Judged::refusals, desk_types::specs::Changes::changes, desk_types::specs::Changes::reply))]
    fn plan_campaign_pause(
        &self,
        account: u64,
        key: &Text,
        campaign: u64,
        on: bool,
    ) -> Result<Plan, EditFault>
        ensures planned { (m : ℕ) → IfOk result (IsPlanned (state_on self.now.tables m)
            (Call.Pause account key.now (PartNamed.OfCampaign campaign) on)) }
        ensures stopped { (m : ℕ) → IfErr result (IsStop (state_on self.now.tables m)
            (Call.Pause account key.now (PartNamed.OfCampaign campaign) on)) }
    {
        let shelf = self.owner(account, key)?;
        let Some(row) = shelf.campaign(campaign) else {
            return Err(EditFault::Refused(Refusal::NoCampaign));
        };
        let changed = Campaign { on, ..*row };
        Ok(Plan::one(self.alloc(), Change::PutCampaign(changed), Reply::Done)?)
    }

    /// Plans the switch of a line.
    #[tactic(auto, unfolding(desk_types::specs::Judged::refusals, desk_types::specs::Changes::changes, desk_types::specs::Changes::reply))]
    fn plan_line_pause(
        &self,
        account: u64,
        key: &Text,
        line: u64,
        on: bool,
    ) -> Result<Plan, EditFault>
        ensures planned { (m : ℕ) → IfOk result (IsPlanned (state_on self.now.tables m)
            (Call.Pause account key.now (PartNamed.OfLine line) on)) }
        ensures stopped { (m : ℕ) → IfErr result (IsStop (state_on self.now.tables m)
            (Call.Pause account key.now (PartNamed.OfLine line) on)) }
    {
        let shelf = self.owner(account, key)?;
        let Some(row) = shelf.line(line) else {
            return Err(EditFault::Refused(Refusal::NoLine));
        };
        let changed = with_on(row, on)?;
        Ok(Plan::one(self.alloc(), Change::PutLine(changed), Reply::Done)?)
    }
}

/// The line with another quality.
fn with_quality(line: &Line, quality: u64) -> Result<Line, NoMemory>
    ensures { IfOk result (λ row. row ≡ record line.now { quality = quality }) }
{
    let mut row = line.twin()?;
    row.quality = quality;
    Ok(row)
}

/// The line with another bid.
fn with_bid(line: &Line, bid: u64) -> Result<Line, NoMemory>
    ensures { IfOk result (λ row. row ≡ record line.now { bid = bid }) }
{
    let mut row = line.twin()?;
    row.bid = bid;
    Ok(row)
}

/// The line, on or off as is said.
fn with_on(line: &Line, on: bool) -> Result<Line, NoMemory>
    ensures { IfOk result (λ row. row ≡ record line.now { on = on }) }
{
    let mut row = line.twin()?;
    row.on = on;
    Ok(row)
}
