//! Rows that stand in the order of their keys.

ghost use Rattle.std.specs.Prelude.{◌≡◌, ◌<◌, ◌≤◌, ◌+◌, ◌∷◌, [], ℕ, true, false, List, length};
ghost use Rattle.std.specs.List.Sorted.{IsPartitionPoint};
ghost use Rattle.std.specs.Vec.{vec_capacity, vec_len};
ghost use Rattle.desk_types.specs.Keys.{account_key, batch_key, budget_key, campaign_key, is_less_key, line_key, negative_key, placement_key};
ghost use Rattle.desk_types.specs.Sound.{AreInOrder};
ghost use Rattle.desk_types.specs.Tables.{has_key, put_row};
ghost use Rattle.desk_types.specs.Slot.{IsSlot};

use crate::day::day_of;
use crate::rows::{Account, Batch, BudgetSet, Campaign, Line, Negative, Placement};

/// A row that stands in its table by its key.
pub trait Keyed: Drop {
    ghost key: { Self → List ℕ };

    /// Whether its key is less than that of another row.
    fn is_before(&self, other: &Self) -> bool
        ensures { result ≡ is_less_key (key self.now) (key other.now) };
}

/// Where a row goes by its key.
#[derive(Clone, Copy)]
pub enum Slot {
    /// In place of the row there, which has its key.
    Taken(usize),
    /// Before the row there, or last; no row has its key.
    Free(usize),
}

/// Puts a row by its key: in place of the one with its key, or else before the first with a greater one. It takes no
/// memory.
pub fn put<R: Keyed>(rows: &mut Vec<R>, row: R)
    requires in_order { AreInOrder R.key rows.old.items }
    requires room { has_key R.key (R.key row) rows.old.items ≡ false → vec_len rows.old < vec_capacity rows.old }
    ensures put { rows.new.items ≡ put_row R.key row rows.old.items }
    ensures capacity { vec_capacity rows.old ≤ vec_capacity rows.new }
    ensures length { vec_len rows.new ≤ vec_len rows.old + 1 }
{
    match slot_of(rows, &row) {
        Slot::Taken(place) => rows[place] = row,
        Slot::Free(place) => {
            let Ok(()) = rows.insert(place, row) else {
                unreachable!()
            };
        }
    }
}

/// Where a row goes among rows in order.
pub fn slot_of<R: Keyed>(rows: &[R], row: &R) -> Slot
    requires { AreInOrder R.key rows.now }
    ensures { IsSlot R.key row.now rows.now result }
{
    let place = place_of(rows, row);
    if place < rows.len() && !row.is_before(&rows[place]) {
        return Slot::Taken(place);
    }
    Slot::Free(place)
}

/// The place of a row's key: how many rows have lesser ones.
fn place_of<R: Keyed>(rows: &[R], row: &R) -> usize
    requires { AreInOrder R.key rows.now }
    ensures within { result ≤ length rows.now }
    ensures place { IsPartitionPoint (λ r. is_less_key (R.key r) (R.key row.now) ≡ true)
        (λ r. is_less_key (R.key r) (R.key row.now) ≡ false) rows.now result }
{
    rows.partition_point(|other| other.is_before(row))
}

/// Whether a row with these two numbers as its key stands before one with those.
fn is_pair_before(account: u64, number: u64, other: u64, others: u64) -> bool
    ensures { result ≡ is_less_key (account ∷ number ∷ []) (other ∷ others ∷ []) }
{
    account < other || (account == other && number < others)
}

impl Keyed for Account {
    ghost key = { account_key };

    fn is_before(&self, other: &Self) -> bool {
        self.number < other.number
    }
}

impl Keyed for Campaign {
    ghost key = { campaign_key };

    fn is_before(&self, other: &Self) -> bool {
        is_pair_before(self.account, self.number, other.account, other.number)
    }
}

impl Keyed for BudgetSet {
    ghost key = { budget_key };

    fn is_before(&self, other: &Self) -> bool {
        self.account < other.account
            || (self.account == other.account
                && is_pair_before(
                    self.campaign,
                    day_of(self.at),
                    other.campaign,
                    day_of(other.at),
                ))
    }
}

impl Keyed for Line {
    ghost key = { line_key };

    fn is_before(&self, other: &Self) -> bool {
        is_pair_before(self.account, self.number, other.account, other.number)
    }
}

impl Keyed for Negative {
    ghost key = { negative_key };

    fn is_before(&self, other: &Self) -> bool {
        is_pair_before(self.account, self.number, other.account, other.number)
    }
}

impl Keyed for Placement {
    ghost key = { placement_key };

    fn is_before(&self, other: &Self) -> bool {
        self.number < other.number
    }
}

impl Keyed for Batch {
    ghost key = { batch_key };

    fn is_before(&self, other: &Self) -> bool {
        is_pair_before(self.account, self.number, other.account, other.number)
    }
}
