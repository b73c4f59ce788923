//! Whether the negatives are sound.

ghost use Rattle.std.specs.Prelude.{◌≡◌, [], None, IfOk};
ghost use Rattle.match_types.specs.Fingerprint.{fingerprint_from};
ghost use Rattle.desk_types.specs.Rules.{account_rules, campaign_rules, first_bad, first_broken, negative_rules};
ghost use Rattle.desk_keeper.specs.OwnRows.{AreSeen};

use crate::soundness::found::has_campaign;
use crate::soundness::order::is_in_order;
use crate::soundness::own_rows::own_rows;
use crate::soundness::patterns::{is_repeated, note};
use desk_types::limits::NEGATIVES_MAX;
use desk_types::{BadTables, Negative, Tables};
use std::alloc::{AllocError, Global};

/// The first negative that breaks a rule, where no account and no campaign does.
pub(crate) fn first_bad_negative(
    tables: &Tables,
    alloc: Global,
) -> Result<Option<BadTables>, AllocError>
    requires accounts { first_bad 1 account_rules [] tables.now.accounts ≡ None }
    requires campaigns { first_bad 2 (campaign_rules tables.now) [] tables.now.campaigns ≡ None }
    ensures { IfOk result (λ found. found ≡ first_bad 5 (negative_rules tables.now) [] tables.now.negatives) }
{
    let rows = tables.negatives.as_slice();
    let mut seen = Vec::new(alloc);
    for (i, row) in rows.iter().enumerate() {
        let before = &rows[..i];
        if let Some(rule) = broken_rule(tables, before, row, &seen) {
            return Ok(Some(BadTables {
                rule,
                table: 5,
                row: i as u64 + 1,
            }));
        }
        note(before, row, &mut seen)?;
    }
    Ok(None)
}

/// The first rule that a negative breaks behind those before it. The numbers are the fingerprints of the last one's
/// account.
#[tactic(auto, using(crate::proofs::KeptTables::own_negatives, desk_types::proofs::Numbering::length_kept), unfolding(desk_types::specs::Rules::negative_rules))]
fn broken_rule(tables: &Tables, before: &[Negative], row: &Negative, seen: &[u64]) -> Option<u64>
    requires accounts { first_bad 1 account_rules [] tables.now.accounts ≡ None }
    requires campaigns { first_bad 2 (campaign_rules tables.now) [] tables.now.campaigns ≡ None }
    requires before { first_bad 5 (negative_rules tables.now) [] before.now ≡ None }
    requires seen { AreSeen (λ n. n.account) (λ n. fingerprint_from n.campaign n.pattern) before.now seen.now }
    ensures { result ≡ first_broken (negative_rules tables.now before.now row.now) }
{
    if !is_in_order(before, row) {
        return Some(1);
    }
    let count = own_rows(before, row.account).len() as u64;
    if row.number != count + 1 {
        return Some(3);
    }
    if !has_campaign(tables, row.account, row.campaign) {
        return Some(4);
    }
    if is_repeated(before, seen, row) {
        return Some(5);
    }
    if count >= NEGATIVES_MAX {
        return Some(6);
    }
    None
}
