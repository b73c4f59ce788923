//! The book of accounts.

ghost use Rattle.std.specs.Prelude.{◌≡◌, ◌<◌, ◌^◌, ◌==◌, ℕ, filter, flat_map, length, IfErr, IfOk, IsTrue, MatchOption};
ghost use Rattle.std.specs.List.{range_with_len};
ghost use Rattle.desk_types.specs.Tables.{no_rows};
ghost use Rattle.desk_types.specs.declared.call.Call.{Call};
ghost use Rattle.accounts.specs.AtHome.{CanBePut};
ghost use Rattle.desk_types.specs.State.{State};
ghost use Rattle.accounts.specs.Planned.{IsPlanned, IsStateOf, IsStop, is_edit, is_of_lines, reads_no_placement, state_on};
ghost use Rattle.accounts.specs.Shelved.{HasNoShelf, HasShelf};

use crate::judging::lines::Asked;
use crate::plan::{EditFault, Plan};
use crate::shelf::{Shelf, row_of};
use desk_types::{BudgetSet, Call};
use std::alloc::Global;
use std::marker::Model;

/// The accounts of a desk with their campaigns, budget settings, lines, negatives and batches. Contracts see it as the
/// tables of these rows, without placements, and the room for more.
#[derive(Drop)]
pub struct Book {
    pub(crate) shelves: Vec<Shelf>,
}

impl Model for Book {
    ghost use Rattle.std.specs.Prelude.{◌-◌, map};
    ghost use Rattle.std.specs.Vec.{vec_capacity, vec_len};
    ghost use Rattle.accounts.specs.BookValue.{BookValue, tables_of};
    ghost use Rattle.accounts.specs.Shelved.{AreShelves};

    ghost Value = { BookValue };

    ghost view = { λ b. record {
      tables = tables_of b.shelves.items;
      room = record {
        accounts = vec_capacity b.shelves - vec_len b.shelves;
        rows = map (λ s. s.spare) b.shelves.items;
      };
    } };

    ghost invariant = { λ b. AreShelves 1 b.shelves.items };
}

impl Book {
    /// A book without accounts. It takes no memory.
    pub fn new(alloc: Global) -> Book
        ensures { result.tables ≡ no_rows }
    {
        Book {
            shelves: Vec::new(alloc),
        }
    }

    /// How many accounts there are. The campaigns and the lines of the book are theirs, one account after another.
    pub fn count(&self) -> u64
        ensures count { result ≡ length self.now.tables.accounts }
        ensures below { result < 2 ^ 63 }
        ensures campaigns { let campaigns = self.now.tables.campaigns in
            campaigns ≡ flat_map (λ account. filter (λ c. c.account == account) campaigns) (range_with_len 1 result) }
        ensures lines { let lines = self.now.tables.lines in
            lines ≡ flat_map (λ account. filter (λ l. l.account == account) lines) (range_with_len 1 result) }
    {
        self.shelves.len() as u64
    }

    pub(crate) fn alloc(&self) -> Global {
        *self.shelves.allocator()
    }

    /// The rows of an account, if there is one of this number.
    pub(crate) fn shelf(&self, account: u64) -> Option<&Shelf>
        ensures { MatchOption result (HasNoShelf self.now.tables account)
            (λ s. HasShelf self.now.tables account s.now) }
    {
        row_of(&self.shelves, account)
    }

    /// Judges an edit at a moment, in seconds: what it changes and replies, or its first refusal. The cents that are used
    /// today of the campaign whose budget a call sets are handed in; other calls do not read them. The book stays as it is,
    /// and no table is copied.
    pub fn judge(&self, call: &Call, moment: u64, used: u64) -> Result<Plan, EditFault>
        requires edit { IsTrue (is_edit call.now) }
        ensures planned { IfOk result (λ plan. (S : State) → IsStateOf self.now.tables moment used call.now S
            → IsPlanned S call.now plan) }
        ensures can_be_put { IfOk result (λ plan. CanBePut self.now.tables plan.changes) }
        ensures stopped { IfErr result (λ fault. (S : State) → IsStateOf self.now.tables moment used call.now S
            → IsStop S call.now fault) }
    {
        match call {
            Call::SetBudget {
                account,
                key,
                campaign,
                amount,
            } => {
                let setting = BudgetSet {
                    account: *account,
                    campaign: *campaign,
                    at: moment,
                    amount: *amount,
                };
                self.plan_budget(key, setting, used)
            }
            _ => self.plan(call, moment),
        }
    }

    /// What an edit that reads no placement changes and replies, or its first refusal.
    fn plan(&self, call: &Call, moment: u64) -> Result<Plan, EditFault>
        requires rows_alone { IsTrue (reads_no_placement call.now) }
        ensures planned { IfOk result (IsPlanned (state_on self.now.tables moment) call.now) }
        ensures stopped { IfErr result (IsStop (state_on self.now.tables moment) call.now) }
    {
        match call {
            Call::AddAccount { key } => self.plan_account(key),
            Call::SetQuality {
                account,
                line,
                quality,
            } => self.plan_quality(*account, *line, *quality),
            Call::Suspend { account, suspended } => self.plan_suspension(*account, *suspended),
            Call::AddCampaign {
                account,
                key,
                budget,
            } => self.plan_campaign(*account, key, *budget, moment),
            Call::Pause {
                account,
                key,
                part,
                on,
            } => self.plan_pause(*account, key, *part, *on),
            Call::AddNegative {
                account,
                key,
                campaign,
                pattern,
            } => self.plan_negative(*account, key, *campaign, pattern),
            Call::DropNegative {
                account,
                key,
                negative,
            } => self.plan_drop(*account, key, *negative),
            Call::AddLine { .. } => self.plan_lines(call, moment),
            Call::SetBid { .. } => self.plan_lines(call, moment),
            Call::Import { .. } => self.plan_lines(call, moment),
            _ => unreachable!(),
        }
    }

    /// What a call that makes lines, or sets the bid of one, changes and replies, or its first refusal.
    fn plan_lines(&self, call: &Call, moment: u64) -> Result<Plan, EditFault>
        requires lines { IsTrue (is_of_lines call.now) }
        ensures planned { IfOk result (IsPlanned (state_on self.now.tables moment) call.now) }
        ensures stopped { IfErr result (IsStop (state_on self.now.tables moment) call.now) }
    {
        match call {
            Call::AddLine {
                account,
                key,
                campaign,
                bid,
                pattern,
                headline,
                link,
            } => {
                let asked = Asked {
                    campaign: *campaign,
                    bid: *bid,
                    pattern,
                    headline,
                    link,
                };
                self.plan_line(*account, key, &asked)
            }
            Call::SetBid {
                account,
                key,
                line,
                bid,
            } => self.plan_bid(*account, key, *line, *bid),
            Call::Import {
                account,
                key,
                batch,
                rows,
            } => self.plan_import(*account, key, *batch, rows.as_slice()),
            _ => unreachable!(),
        }
    }
}
