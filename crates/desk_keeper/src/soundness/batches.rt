//! Whether the batches are sound.

ghost use Rattle.std.specs.Prelude.{◌≡◌, ◌≤◌, [], None};
ghost use Rattle.desk_types.specs.Rules.{account_rules, batch_rules, first_bad, first_broken, has_lines_of, is_good_batch, line_rules};

use crate::soundness::found::{has_account, has_line};
use crate::soundness::order::is_in_order;
use desk_types::limits::{BATCH_MAX, ROWS_MAX};
use desk_types::{BadTables, Batch, Tables};

/// The first batch that breaks a rule, where no account and no line does.
pub(crate) fn first_bad_batch(tables: &Tables) -> Option<BadTables>
    requires accounts { first_bad 1 account_rules [] tables.now.accounts ≡ None }
    requires lines { first_bad 4 (line_rules tables.now) [] tables.now.lines ≡ None }
    ensures { result ≡ first_bad 7 (batch_rules tables.now) [] tables.now.batches }
{
    let rows = tables.batches.as_slice();
    for (i, row) in rows.iter().enumerate() {
        if let Some(rule) = broken_rule(tables, &rows[..i], row) {
            return Some(BadTables {
                rule,
                table: 7,
                row: i as u64 + 1,
            });
        }
    }
    None
}

/// The first rule that a batch breaks behind those before it.
#[tactic(auto, unfolding(desk_types::specs::Rules::batch_rules))]
fn broken_rule(tables: &Tables, before: &[Batch], row: &Batch) -> Option<u64>
    requires accounts { first_bad 1 account_rules [] tables.now.accounts ≡ None }
    requires lines { first_bad 4 (line_rules tables.now) [] tables.now.lines ≡ None }
    ensures { result ≡ first_broken (batch_rules tables.now before.now row.now) }
{
    if !is_in_order(before, row) {
        return Some(1);
    }
    if !is_good_batch(row) {
        return Some(2);
    }
    if !has_account(tables.accounts.as_slice(), row.account) || !has_lines_of(tables, row) {
        return Some(4);
    }
    None
}

/// Whether the fields of a batch are in their ranges.
fn is_good_batch(row: &Batch) -> bool
    ensures { result ≡ is_good_batch row.now }
{
    (1..=BATCH_MAX).contains(&row.number) && (1..=ROWS_MAX).contains(&row.count)
}

/// Whether all lines of a batch are there. The numbers of an account's lines run from 1, so that all are where the first
/// and the last are.
fn has_lines_of(tables: &Tables, row: &Batch) -> bool
    requires lines { first_bad 4 (line_rules tables.now) [] tables.now.lines ≡ None }
    requires some { 1 ≤ row.now.count }
    ensures { result ≡ has_lines_of tables.now row.now }
{
    let lines = tables.lines.as_slice();
    let Some(last) = row.first.checked_add(row.count - 1) else {
        return false;
    };
    has_line(lines, row.account, row.first) && has_line(lines, row.account, last)
}
