//! Whether the placements are sound.

ghost use Rattle.std.specs.Prelude.{◌≡◌, ◌≤◌, [], None, IfOk, nat_le};
ghost use Rattle.desk_types.specs.declared.limits.TheConstants.{MOMENT_MAX};
ghost use Rattle.desk_types.specs.Rules.{account_rules, budget_rules, campaign_rules, first_bad, first_broken, has_line_of, is_good_fate, is_good_placement, is_in_turn, is_in_window, last_passes, line_rules, placement_rules};
ghost use Rattle.desk_keeper.specs.PlacementChecks.{rules_but_budget};

use crate::soundness::charges::{Charges, budget_on};
use crate::soundness::found::has_campaign;
use crate::soundness::order::is_in_order;
use crate::soundness::own_rows::find_own;
use auction_types::limits::{BID_MAX, BID_MIN, PLACES_MAX};
use desk_types::limits::{CLICK_WINDOW, MOMENT_MAX};
use desk_types::{BadTables, Fate, Placement, Tables, day_of};
use std::alloc::{AllocError, Global};

/// The first placement that breaks a rule, where no row of the tables that it names does.
pub(crate) fn first_bad_placement(
    tables: &Tables,
    alloc: Global,
) -> Result<Option<BadTables>, AllocError>
    requires accounts { first_bad 1 account_rules [] tables.now.accounts ≡ None }
    requires campaigns { first_bad 2 (campaign_rules tables.now) [] tables.now.campaigns ≡ None }
    requires budgets { first_bad 3 (budget_rules tables.now) [] tables.now.budgets ≡ None }
    requires lines { first_bad 4 (line_rules tables.now) [] tables.now.lines ≡ None }
    ensures { IfOk result (λ found. found ≡ first_bad 6 (placement_rules tables.now) [] tables.now.placements) }
{
    let mut charges = Charges::new(tables.latest(), alloc);
    let rows = tables.placements.as_slice();
    for (i, row) in rows.iter().enumerate() {
        if let Some(rule) = broken_rule(tables, &rows[..i], row) {
            return Ok(Some(bad_row(rule, i as u64 + 1)));
        }
        let total = charges.add(row)?;
        let day = day_of(row.shown);
        if total > budget_on(tables.budgets.as_slice(), row.account, row.campaign, day) {
            return Ok(Some(bad_row(9, i as u64 + 1)));
        }
    }
    Ok(None)
}

/// The rule that the placement at a place from 1 breaks.
fn bad_row(rule: u64, row: u64) -> BadTables
    ensures { result ≡ record { rule = rule; table = 6; row = row } }
{
    BadTables {
        rule,
        table: 6,
        row,
    }
}

/// The first rule that a placement breaks behind those before it, but for the one on budgets.
#[tactic(auto, unfolding(crate::specs::PlacementChecks::rules_but_budget))]
fn broken_rule(tables: &Tables, before: &[Placement], row: &Placement) -> Option<u64>
    requires accounts { first_bad 1 account_rules [] tables.now.accounts ≡ None }
    requires campaigns { first_bad 2 (campaign_rules tables.now) [] tables.now.campaigns ≡ None }
    requires lines { first_bad 4 (line_rules tables.now) [] tables.now.lines ≡ None }
    ensures { result ≡ first_broken (rules_but_budget tables.now before.now row.now) }
{
    if !is_in_order(before, row) {
        return Some(1);
    }
    if !is_good(row) {
        return Some(2);
    }
    if row.number != before.len() as u64 + 1 {
        return Some(3);
    }
    if !has_campaign(tables, row.account, row.campaign) || !has_line_of(tables, row) {
        return Some(4);
    }
    if !is_in_turn(before, row) {
        return Some(8);
    }
    None
}

/// Whether every field is in its range.
fn is_good(row: &Placement) -> bool
    ensures { result ≡ is_good_placement row.now }
{
    (1..=PLACES_MAX).contains(&row.place)
        && (BID_MIN..=BID_MAX).contains(&row.bid)
        && (1..=row.bid).contains(&row.price)
        && row.shown <= MOMENT_MAX
        && is_good_fate(row.fate)
}

/// Whether the moments that a fate tells are in their range.
fn is_good_fate(fate: Fate) -> bool
    ensures { result ≡ is_good_fate fate }
{
    match fate {
        Fate::Open => true,
        Fate::Settled(at) => at <= MOMENT_MAX,
        Fate::Credited(settled, credited) => settled <= MOMENT_MAX && credited <= MOMENT_MAX,
    }
}

/// Whether the line of a placement is there, and is of its campaign.
fn has_line_of(tables: &Tables, row: &Placement) -> bool
    requires lines { first_bad 4 (line_rules tables.now) [] tables.now.lines ≡ None }
    ensures { result ≡ has_line_of tables.now row.now }
{
    match find_own(tables.lines.as_slice(), row.account, row.line) {
        None => false,
        Some(line) => line.campaign == row.campaign,
    }
}

/// Whether a placement is shown not before the one before it, with a deadline and a fate that follow.
fn is_in_turn(before: &[Placement], row: &Placement) -> bool
    requires { row.now.shown ≤ MOMENT_MAX }
    ensures { result ≡ is_in_turn before.now row.now }
{
    is_shown_after(before, row) && row.deadline == row.shown + CLICK_WINDOW && is_in_window(row)
}

/// Whether a placement is shown not before the last one before it, if there is one.
fn is_shown_after(before: &[Placement], row: &Placement) -> bool
    ensures { result ≡ last_passes (λ q. nat_le q.shown row.now.shown) before.now }
{
    match before.split_last() {
        None => true,
        Some((last, _)) => last.shown <= row.shown,
    }
}

/// Whether a click settled it in time, and a credit came not before that.
fn is_in_window(row: &Placement) -> bool
    ensures { result ≡ is_in_window row.now row.now.fate }
{
    match row.fate {
        Fate::Open => true,
        Fate::Settled(at) => row.shown <= at && at < row.deadline,
        Fate::Credited(settled, credited) => {
            row.shown <= settled && settled < row.deadline && settled <= credited
        }
    }
}
