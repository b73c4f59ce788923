//! Whether the lines are sound.

ghost use Rattle.std.specs.Prelude.{◌≡◌, [], None, IfOk};
ghost use Rattle.desk_types.specs.Rules.{account_rules, campaign_rules, first_bad, first_broken, is_good_line, line_rules};
ghost use Rattle.match_types.specs.Fingerprint.{fingerprint_from};
ghost use Rattle.desk_keeper.specs.OwnRows.{AreSeen};

use crate::soundness::found::has_campaign;
use crate::soundness::order::is_in_order;
use crate::soundness::own_rows::own_rows;
use crate::soundness::patterns::{is_repeated, note};
use auction_types::limits::{BID_MAX, BID_MIN, QUALITY_MAX, QUALITY_MIN};
use desk_types::limits::{LINES_MAX, LINK_BYTES_MAX};
use desk_types::{BadTables, Line, Tables, is_headline};
use std::alloc::{AllocError, Global};

/// The first line that breaks a rule, where no account and no campaign does.
pub(crate) fn first_bad_line(
    tables: &Tables,
    alloc: Global,
) -> Result<Option<BadTables>, AllocError>
    requires accounts { first_bad 1 account_rules [] tables.now.accounts ≡ None }
    requires campaigns { first_bad 2 (campaign_rules tables.now) [] tables.now.campaigns ≡ None }
    ensures { IfOk result (λ found. found ≡ first_bad 4 (line_rules tables.now) [] tables.now.lines) }
{
    let rows = tables.lines.as_slice();
    let mut seen = Vec::new(alloc);
    for (i, row) in rows.iter().enumerate() {
        let before = &rows[..i];
        if let Some(rule) = broken_rule(tables, before, row, &seen) {
            return Ok(Some(BadTables {
                rule,
                table: 4,
                row: i as u64 + 1,
            }));
        }
        note(before, row, &mut seen)?;
    }
    Ok(None)
}

/// The first rule that a line breaks behind those before it. The numbers are the fingerprints of the last one's account.
#[tactic(auto, using(crate::proofs::KeptTables::own_lines, desk_types::proofs::Numbering::length_kept), unfolding(desk_types::specs::Rules::line_rules))]
fn broken_rule(tables: &Tables, before: &[Line], row: &Line, seen: &[u64]) -> Option<u64>
    requires accounts { first_bad 1 account_rules [] tables.now.accounts ≡ None }
    requires campaigns { first_bad 2 (campaign_rules tables.now) [] tables.now.campaigns ≡ None }
    requires before { first_bad 4 (line_rules tables.now) [] before.now ≡ None }
    requires seen { AreSeen (λ l. l.account) (λ l. fingerprint_from l.campaign l.pattern) before.now seen.now }
    ensures { result ≡ first_broken (line_rules tables.now before.now row.now) }
{
    if !is_in_order(before, row) {
        return Some(1);
    }
    if !is_good_line(row) {
        return Some(2);
    }
    let count = own_rows(before, row.account).len() as u64;
    if row.number != count + 1 {
        return Some(3);
    }
    if !has_campaign(tables, row.account, row.campaign) {
        return Some(4);
    }
    if is_repeated(before, seen, row) {
        return Some(5);
    }
    if count >= LINES_MAX {
        return Some(6);
    }
    None
}

/// Whether the fields of a line are in their ranges. Its link is one by its type.
#[tactic(auto, unfolding(desk_types::specs::Fields::is_link))]
fn is_good_line(row: &Line) -> bool
    ensures { result ≡ is_good_line row.now }
{
    prove!(row.link.as_str().len() <= LINK_BYTES_MAX);
    is_headline(row.headline.as_str())
        && (BID_MIN..=BID_MAX).contains(&row.bid)
        && (QUALITY_MIN..=QUALITY_MAX).contains(&row.quality)
}
