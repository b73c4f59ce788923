//! The summary of a desk's journal.

ghost use Rattle.std.specs.Prelude.{◌≡◌, count_by};
ghost use Rattle.desk_types.specs.Summary.{cents_of, is_faulted, summary};
ghost use Rattle.desk_types.specs.Money.{is_spent as the_fate_is_spent};
ghost use Rattle.desk_core.specs.DeskValue.{first_state};
ghost use Rattle.desk_core.specs.Searches.{is_answered_search};

use crate::desk::Desk;
use crate::money::is_spent;
use desk_keeper::Keeper;
use desk_types::{Call, Entry, Outcome, Placement, Summary};

impl<K: Keeper> Desk<K> {
    /// The summary of its journal: what it counts of the entries, and of the placements behind them.
    pub fn summary(&self) -> Summary
        ensures { result ≡ summary (first_state self.now) self.now.log }
    {
        let log = self.journal.entries();
        let rows = self.ledger.placements.as_slice();
        Summary {
            entries: log.len() as u64,
            faulted: faulted(log),
            searches: searches(log),
            placements: rows.len() as u64,
            settled: settled(rows),
            cents: cents(rows),
        }
    }
}

/// How many entries tell of a keeper's fault.
fn faulted(log: &[Entry]) -> u64
    ensures { result ≡ count_by (λ e. is_faulted e.outcome) log.now }
{
    let mut count = 0u64;
    for entry in log {
        if is_faulted(entry.outcome) {
            count += 1;
        }
    }
    count
}

/// Whether an outcome is a keeper's fault.
fn is_faulted(outcome: Outcome) -> bool
    ensures { result ≡ is_faulted outcome }
{
    matches!(outcome, Outcome::Faulted { .. })
}

/// How many searches were answered.
fn searches(log: &[Entry]) -> u64
    ensures { result ≡ count_by is_answered_search log.now }
{
    let mut count = 0u64;
    for entry in log {
        if is_answered_search(entry) {
            count += 1;
        }
    }
    count
}

/// Whether an entry is of a search that was answered.
#[tactic(auto, unfolding(crate::specs::Searches::is_answered_search))]
fn is_answered_search(entry: &Entry) -> bool
    ensures { result ≡ is_answered_search entry.now }
{
    matches!(entry.call, Call::Search { .. }) && matches!(entry.outcome, Outcome::Answered)
}

/// How many of the placements a click settled.
fn settled(rows: &[Placement]) -> u64
    ensures { result ≡ count_by (λ p. the_fate_is_spent p.fate) rows.now }
{
    rows.iter().filter(|row| is_spent(row.fate)).count() as u64
}

/// What these cost, in cents.
fn cents(rows: &[Placement]) -> u64
    ensures { result ≡ cents_of rows.now }
{
    let mut cents = 0u64;
    for row in rows {
        if is_spent(row.fate) {
            cents = cents.saturating_add(row.price);
        }
    }
    cents
}
