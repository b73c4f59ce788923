//! Whether the campaigns are sound.

ghost use Rattle.std.specs.Prelude.{◌≡◌, ◌==◌, ◌&&◌, ℕ, [], None, IfOk};
ghost use Rattle.std.specs.HashSet.{contains};
ghost use Rattle.std.specs.List.{list_any};
ghost use Rattle.desk_types.specs.Rules.{account_rules, campaign_rules, first_bad, first_broken, has_budget};
ghost use Rattle.desk_keeper.specs.OwnRows.{is_same_pair};

use crate::soundness::found::has_account;
use crate::soundness::order::is_in_order;
use crate::soundness::own_rows::own_rows;
use desk_types::limits::CAMPAIGNS_MAX;
use desk_types::{BadTables, BudgetSet, Campaign, Tables};
use std::alloc::{AllocError, Global};
use std::collections::HashSet;

/// The first campaign that breaks a rule, where no account does.
pub(crate) fn first_bad_campaign(
    tables: &Tables,
    alloc: Global,
) -> Result<Option<BadTables>, AllocError>
    requires accounts { first_bad 1 account_rules [] tables.now.accounts ≡ None }
    ensures { IfOk result (λ found. found ≡ first_bad 2 (campaign_rules tables.now) [] tables.now.campaigns) }
{
    let budgeted = budgeted(alloc, tables.budgets.as_slice())?;
    let rows = tables.campaigns.as_slice();
    for (i, row) in rows.iter().enumerate() {
        let is_paid = budgeted.contains(&(row.account, row.number));
        if let Some(rule) = broken_rule(tables, &rows[..i], row, is_paid) {
            return Ok(Some(BadTables {
                rule,
                table: 2,
                row: i as u64 + 1,
            }));
        }
    }
    Ok(None)
}

/// The campaigns that budgets are set for, by account and number.
fn budgeted(alloc: Global, budgets: &[BudgetSet]) -> Result<HashSet<(u64, u64)>, AllocError>
    ensures { IfOk result (λ found. (account campaign : ℕ) → contains is_same_pair found (account, campaign)
        ≡ list_any (λ b. b.account == account && b.campaign == campaign) budgets.now) }
{
    let mut found = HashSet::new(alloc);
    for row in budgets {
        found.insert((row.account, row.campaign))?;
    }
    Ok(found)
}

/// The first rule that a campaign breaks behind those before it.
#[tactic(auto, using(crate::proofs::KeptTables::own_campaigns, crate::proofs::LastRows::owners_up_to, desk_types::proofs::Numbering::length_kept), unfolding(desk_types::specs::Rules::campaign_rules))]
fn broken_rule(tables: &Tables, before: &[Campaign], row: &Campaign, is_paid: bool) -> Option<u64>
    requires accounts { first_bad 1 account_rules [] tables.now.accounts ≡ None }
    requires before { first_bad 2 (campaign_rules tables.now) [] before.now ≡ None }
    requires is_paid { is_paid ≡ has_budget tables.now row.now }
    ensures { result ≡ first_broken (campaign_rules tables.now before.now row.now) }
{
    if !is_in_order(before, row) {
        return Some(1);
    }
    let own = own_rows(before, row.account).len() as u64;
    if row.number != own + 1 {
        return Some(3);
    }
    if !has_account(tables.accounts.as_slice(), row.account) {
        return Some(4);
    }
    if own >= CAMPAIGNS_MAX {
        return Some(6);
    }
    if !is_paid {
        return Some(7);
    }
    None
}
