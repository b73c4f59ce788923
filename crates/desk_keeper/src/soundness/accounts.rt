//! Whether the accounts are sound.

ghost use Rattle.std.specs.Prelude.{◌≡◌, None, [], IfSome};
ghost use Rattle.desk_types.specs.Rules.{account_rules, first_bad, first_broken};

use crate::soundness::order::is_in_order;
use desk_types::limits::ACCOUNTS_MAX;
use desk_types::{Account, BadTables, is_key};

/// The first account that breaks a rule.
pub(crate) fn first_bad_account(rows: &[Account]) -> Option<BadTables>
    ensures { result ≡ first_bad 1 account_rules [] rows.now }
{
    for (i, row) in rows.iter().enumerate() {
        if let Some(rule) = broken_rule(&rows[..i], row) {
            return Some(BadTables {
                rule,
                table: 1,
                row: i as u64 + 1,
            });
        }
    }
    None
}

/// The first rule that an account breaks behind those before it.
#[tactic(auto, unfolding(desk_types::specs::Rules::account_rules))]
fn broken_rule(before: &[Account], row: &Account) -> Option<u64>
    ensures { result ≡ first_broken (account_rules before.now row.now) }
{
    let count = before.len() as u64;
    if !is_in_order(before, row) {
        return Some(1);
    }
    if !is_key(row.key.as_str()) {
        return Some(2);
    }
    if row.number != count + 1 {
        return Some(3);
    }
    if count >= ACCOUNTS_MAX {
        return Some(6);
    }
    None
}
