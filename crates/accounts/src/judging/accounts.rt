//! The judging of accounts, campaigns and switches.

ghost use Rattle.std.specs.Prelude.{◌≡◌, ℕ, ◌+◌, [], ◌∷◌, None, IfErr, IfOk, OnOk};
ghost use Rattle.desk_types.specs.declared.call.Call.{Call};
ghost use Rattle.desk_types.specs.declared.tables.Tables.{Tables};
ghost use Rattle.desk_types.specs.Judged.{campaign_row, first};
ghost use Rattle.accounts.specs.Planned.{IsFirst, IsPlanned, IsStop, budget_rows, state_on};
ghost use Rattle.accounts.specs.Shelved.{HasShelf};

use crate::book::Book;
use crate::plan::{EditFault, Plan, when};
use crate::shelf::Shelf;
use desk_types::limits::{ACCOUNTS_MAX, BUDGET_MAX, BUDGET_MIN, CAMPAIGNS_MAX};
use desk_types::{Account, BudgetSet, Campaign, Change, Field, Refusal, Reply, is_key};
use query_words::{List, Text, Twin};
use std::alloc::{AllocError, Global};

impl Book {
    /// Plans an account.
    #[tactic(auto, unfolding(desk_types::specs::Judged::refusals, desk_types::specs::Changes::changes, desk_types::specs::Changes::reply))]
    pub(crate) fn plan_account(&self, key: &Text) -> Result<Plan, EditFault>
        ensures planned { (m : ℕ) → IfOk result (IsPlanned (state_on self.now.tables m) (Call.AddAccount key.now)) }
        ensures stopped { (m : ℕ) → IfErr result (IsStop (state_on self.now.tables m) (Call.AddAccount key.now)) }
    {
        when(!is_key(key.as_str()), Refusal::BadField(Field::Key))?;
        when(self.count() >= ACCOUNTS_MAX, Refusal::AccountsFull)?;
        let number = self.count() + 1;
        let account = Account {
            number,
            key: key.twin()?,
            suspended: false,
        };
        Ok(Plan::one(
            self.alloc(),
            Change::PutAccount(account),
            Reply::Made(number),
        )?)
    }

    /// Plans the suspension of an account, or its release.
    #[tactic(auto, unfolding(desk_types::specs::Judged::refusals, desk_types::specs::Changes::changes, desk_types::specs::Changes::reply))]
    pub(crate) fn plan_suspension(&self, account: u64, suspended: bool) -> Result<Plan, EditFault>
        ensures planned { (m : ℕ) → IfOk result
            (IsPlanned (state_on self.now.tables m) (Call.Suspend account suspended)) }
        ensures stopped { (m : ℕ) → IfErr result
            (IsStop (state_on self.now.tables m) (Call.Suspend account suspended)) }
    {
        let Some(shelf) = self.shelf(account) else {
            return Err(EditFault::Refused(Refusal::NoAccount));
        };
        let row = with_suspended(&shelf.account, suspended)?;
        Ok(Plan::one(self.alloc(), Change::PutAccount(row), Reply::Done)?)
    }

    /// Plans a campaign, which is on from the start, with the budget of its first day.
    #[tactic(auto, unfolding(desk_types::specs::Judged::refusals, desk_types::specs::Changes::changes, desk_types::specs::Changes::reply))]
    pub(crate) fn plan_campaign(
        &self,
        account: u64,
        key: &Text,
        budget: u64,
        moment: u64,
    ) -> Result<Plan, EditFault>
        ensures planned { IfOk result
            (IsPlanned (state_on self.now.tables moment) (Call.AddCampaign account key.now budget)) }
        ensures stopped { (m : ℕ) → IfErr result
            (IsStop (state_on self.now.tables m) (Call.AddCampaign account key.now budget)) }
    {
        let shelf = self.owner(account, key)?;
        when(
            !(BUDGET_MIN..=BUDGET_MAX).contains(&budget),
            Refusal::BadField(Field::Budget),
        )?;
        when(
            shelf.count_campaigns() >= CAMPAIGNS_MAX,
            Refusal::CampaignsFull,
        )?;
        let number = shelf.count_campaigns() + 1;
        let campaign = Campaign {
            account,
            number,
            on: true,
        };
        let setting = BudgetSet {
            account,
            campaign: number,
            at: moment,
            amount: budget,
        };
        let changes = put_both(self.alloc(), campaign, setting)?;
        Ok(Plan {
            changes: List::from_vec(changes),
            reply: Reply::Made(number),
        })
    }

    /// Plans the setting of a budget: it takes the place of an earlier one of the same day. So much is used today.
    pub(crate) fn plan_budget(
        &self,
        key: &Text,
        setting: BudgetSet,
        used: u64,
    ) -> Result<Plan, EditFault>
        ensures changed { IfOk result (λ plan. plan.changes ≡ Change.PutBudget setting ∷ []) }
        ensures replied { IfOk result (λ plan. plan.reply ≡ Reply.Done) }
        ensures passed { let s = setting in OnOk result
            (first (budget_rows self.now.tables used s.account key.now s.campaign s.amount) ≡ None) }
        ensures stopped { let s = setting in IfErr result
            (IsFirst (budget_rows self.now.tables used s.account key.now s.campaign s.amount)) }
    {
        let shelf = self.owner(setting.account, key)?;
        when(
            shelf.campaign(setting.campaign).is_none(),
            Refusal::NoCampaign,
        )?;
        when(
            !(BUDGET_MIN..=BUDGET_MAX).contains(&setting.amount),
            Refusal::BadField(Field::Budget),
        )?;
        when(setting.amount < used, Refusal::BudgetBelowUsed(used))?;
        Ok(Plan::one(self.alloc(), Change::PutBudget(setting), Reply::Done)?)
    }
}

/// The account, suspended or not as is said.
fn with_suspended(account: &Account, suspended: bool) -> Result<Account, AllocError>
    ensures { IfOk result (λ row. row ≡ record account.now { suspended = suspended }) }
{
    let mut row = account.twin()?;
    row.suspended = suspended;
    Ok(row)
}

/// The changes that put a campaign and its budget setting.
fn put_both(
    alloc: Global,
    campaign: Campaign,
    setting: BudgetSet,
) -> Result<Vec<Change>, AllocError>
    ensures { IfOk result (λ changes. changes.items ≡ Change.PutCampaign campaign ∷ Change.PutBudget setting ∷ []) }
{
    Ok(vec![in alloc; Change::PutCampaign(campaign), Change::PutBudget(setting)]?)
}
