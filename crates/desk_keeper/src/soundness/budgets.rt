//! Whether the budgets are sound.

ghost use Rattle.std.specs.Prelude.{◌≡◌, [], None};
ghost use Rattle.desk_types.specs.Rules.{account_rules, budget_rules, campaign_rules, first_bad, first_broken, is_good_budget};

use crate::soundness::found::has_campaign;
use crate::soundness::order::is_in_order;
use desk_types::limits::{BUDGET_MAX, BUDGET_MIN, MOMENT_MAX};
use desk_types::{BadTables, BudgetSet, Tables};

/// The first budget that breaks a rule, where no account and no campaign does.
pub(crate) fn first_bad_budget(tables: &Tables) -> Option<BadTables>
    requires accounts { first_bad 1 account_rules [] tables.now.accounts ≡ None }
    requires campaigns { first_bad 2 (campaign_rules tables.now) [] tables.now.campaigns ≡ None }
    ensures { result ≡ first_bad 3 (budget_rules tables.now) [] tables.now.budgets }
{
    let rows = tables.budgets.as_slice();
    for (i, row) in rows.iter().enumerate() {
        if let Some(rule) = broken_rule(tables, &rows[..i], row) {
            return Some(BadTables {
                rule,
                table: 3,
                row: i as u64 + 1,
            });
        }
    }
    None
}

/// The first rule that a budget breaks behind those before it.
#[tactic(auto, unfolding(desk_types::specs::Rules::budget_rules))]
fn broken_rule(tables: &Tables, before: &[BudgetSet], row: &BudgetSet) -> Option<u64>
    requires accounts { first_bad 1 account_rules [] tables.now.accounts ≡ None }
    requires campaigns { first_bad 2 (campaign_rules tables.now) [] tables.now.campaigns ≡ None }
    ensures { result ≡ first_broken (budget_rules tables.now before.now row.now) }
{
    if !is_in_order(before, row) {
        return Some(1);
    }
    if !is_good_budget(row) {
        return Some(2);
    }
    if !has_campaign(tables, row.account, row.campaign) {
        return Some(4);
    }
    None
}

/// Whether the fields of a budget are in their ranges.
fn is_good_budget(row: &BudgetSet) -> bool
    ensures { result ≡ is_good_budget row.now }
{
    (BUDGET_MIN..=BUDGET_MAX).contains(&row.amount) && row.at <= MOMENT_MAX
}
