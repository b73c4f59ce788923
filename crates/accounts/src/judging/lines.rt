//! The judging of lines.

ghost use Rattle.std.specs.Option.{option_copied};
ghost use Rattle.std.specs.Prelude.{◌≡◌, ℕ, ◌-◌, ◌<◌, ◌^◌, [], ◌∷◌, List, None, find, is_none, IfErr, IfOk, OnOk};
ghost use Rattle.desk_types.specs.declared.rows.Line.{Line as LineRow};
ghost use Rattle.desk_types.specs.declared.call.Call.{Call};
ghost use Rattle.desk_types.specs.declared.tables.Tables.{Tables};
ghost use Rattle.desk_types.specs.Tables.{campaign_of, lines_of};
ghost use Rattle.desk_types.specs.Changes.{line_made};
ghost use Rattle.desk_types.specs.Judged.{first, is_line_like, line_rows};
ghost use Rattle.accounts.specs.Planned.{IsFirst, IsPlanned, IsStop, state_on};
ghost use Rattle.accounts.specs.Shelved.{HasShelf, IsBehind};

use crate::book::Book;
use crate::line_table::LineTable;
use crate::plan::{EditFault, Plan, when};
use crate::shelf::{Shelf, row_of};
use auction_types::limits::{BID_MAX, BID_MIN};
use desk_types::limits::{LINES_MAX, QUALITY_NEW};
use desk_types::{Change, Field, Line, LinkText, Refusal, Reply, is_headline};
use match_types::Pattern;
use query_words::{NoMemory, Text, Twin};
use std::marker::Model;

/// A line as an advertiser asks for it. Contracts see it as its parts.
#[derive(Drop)]
pub(crate) struct Asked<'a> {
    pub(crate) campaign: u64,
    pub(crate) bid: u64,
    pub(crate) pattern: &'a Text,
    pub(crate) headline: &'a Text,
    pub(crate) link: &'a Text,
}

impl<'a> Model for Asked<'a> {
    ghost use Rattle.desk_types.specs.Judged.{AskedLine};

    ghost Value = { AskedLine };

    ghost view = { λ a. record {
      campaign = a.campaign;
      bid = a.bid;
      pattern = a.pattern.now;
      headline = a.headline.now;
      link = a.link.now;
    } };
}

impl Book {
    /// Plans a line, which is on from the start.
    #[tactic(auto, unfolding(desk_types::specs::Judged::refusals, desk_types::specs::Changes::changes, desk_types::specs::Changes::reply))]
    pub(crate) fn plan_line(
        &self,
        account: u64,
        key: &Text,
        asked: &Asked<'_>,
    ) -> Result<Plan, EditFault>
        ensures planned { let a = asked.now in (m : ℕ) → IfOk result (IsPlanned (state_on self.now.tables m)
            (Call.AddLine account key.now a.campaign a.bid a.pattern a.headline a.link)) }
        ensures stopped { let a = asked.now in (m : ℕ) → IfErr result (IsStop (state_on self.now.tables m)
            (Call.AddLine account key.now a.campaign a.bid a.pattern a.headline a.link)) }
    {
        let shelf = self.owner(account, key)?;
        let line = shelf.line_made(account, &LineTable::new(self.alloc()), asked)?;
        let number = line.number;
        Ok(Plan::one(self.alloc(), Change::PutLine(line), Reply::Made(number))?)
    }
}

impl Shelf {
    /// The row of a line that the account of this number asks for, behind lines that are made in the same call, or why
    /// it is refused.
    pub(crate) fn line_made(
        &self,
        account: u64,
        made: &LineTable,
        asked: &Asked<'_>,
    ) -> Result<Line, EditFault>
        ensures line { IfOk result (λ line. (T : Tables) → IsBehind T account self.now made.now.rows
            → line ≡ line_made T account asked.now) }
        ensures passed { OnOk result ((T : Tables) → IsBehind T account self.now made.now.rows
            → first (line_rows T account asked.now) ≡ None) }
        ensures stopped { IfErr result (λ fault. (T : Tables) → IsBehind T account self.now made.now.rows
            → IsFirst (line_rows T account asked.now) fault) }
    {
        when(self.lacks_campaign(asked.campaign), Refusal::NoCampaign)?;
        when(
            !(BID_MIN..=BID_MAX).contains(&asked.bid),
            Refusal::BadField(Field::Bid),
        )?;
        let pattern = Pattern::read(*self.campaigns.allocator(), asked.pattern.as_str())?;
        when(
            !is_headline(asked.headline.as_str()),
            Refusal::BadField(Field::Headline),
        )?;
        let Some(link) = LinkText::read(asked.link.as_str()) else {
            return Err(EditFault::Refused(Refusal::BadField(Field::Link)));
        };
        if let Some(there) = self.line_there(made, asked.campaign, &pattern) {
            return Err(EditFault::Refused(Refusal::LineThere(there.number)));
        }
        let count = self.count_behind(made);
        when(count >= LINES_MAX, Refusal::LinesFull)?;
        Ok(Line {
            account,
            number: count + 1,
            campaign: asked.campaign,
            pattern,
            headline: asked.headline.twin()?,
            link,
            bid: asked.bid,
            quality: QUALITY_NEW,
            on: true,
        })
    }

    /// Whether the account has no campaign of this number.
    fn lacks_campaign(&self, campaign: u64) -> bool
        ensures { (T : Tables) (account : ℕ) (made : List LineRow) → IsBehind T account self.now made
            → result ≡ is_none (campaign_of T account campaign) }
    {
        row_of(&self.campaigns, campaign).is_none()
    }

    /// The line of a campaign with the same pattern, if there is one, among the account's and those that are made behind
    /// them.
    fn line_there<'a>(
        &'a self,
        made: &'a LineTable,
        campaign: u64,
        pattern: &Pattern,
    ) -> Option<&'a Line>
        ensures { (T : Tables) (account : ℕ) → IsBehind T account self.now made.now.rows
            → option_copied result ≡ find (is_line_like account campaign pattern.now) T.lines }
    {
        match self.lines.line_like(campaign, pattern) {
            Some(line) => Some(line),
            None => made.line_like(campaign, pattern),
        }
    }

    /// How many lines the account has with those that are made behind them.
    #[tactic(auto, using(crate::proofs::Finds::counted_behind))]
    fn count_behind(&self, made: &LineTable) -> u64
        ensures count { (T : Tables) (account : ℕ) → IsBehind T account self.now made.now.rows
            → result ≡ lines_of T account }
        ensures below { result < 2 ^ 64 - 1 }
    {
        self.lines.as_slice().len() as u64 + made.as_slice().len() as u64
    }
}
