//! Where a row goes in a table, whatever the order of its rows.

ghost use Rattle.std.specs.Prelude.{◌≡◌, ◌<◌, ◌≤◌, ◌+◌, ◌==◌, ℕ, true, IsTrue, length};
ghost use Rattle.std.specs.List.{position_or_len};
ghost use Rattle.std.specs.Vec.{vec_capacity, vec_len};
ghost use Rattle.desk_types.specs.Keys.{is_less_key, is_same_key, placement_key};
ghost use Rattle.desk_types.specs.Slot.{IsSlot};
ghost use Rattle.desk_types.specs.Sound.{AreInOrder};
ghost use Rattle.desk_types.specs.Tables.{put_row};

use desk_types::Placement;
use desk_types::keyed::{Keyed, Slot, slot_of};

/// Whether the rows stand in the order of their keys.
pub(crate) fn are_in_order<R: Keyed>(rows: &[R]) -> bool
    ensures { IsTrue result → AreInOrder R.key rows.now }
{
    for place in 1..rows.len() {
        if !rows[place - 1].is_before(&rows[place]) {
            return false;
        }
    }
    true
}

/// Puts a row by its key into rows with room for it. It is found by halving where they stand in order.
pub(crate) fn put_by<R: Keyed>(rows: &mut Vec<R>, row: R, in_order: bool)
    requires in_order { IsTrue in_order → AreInOrder R.key rows.old.items }
    requires room { vec_len rows.old < vec_capacity rows.old }
    ensures put { rows.new.items ≡ put_row R.key row rows.old.items }
    ensures capacity { vec_capacity rows.old ≤ vec_capacity rows.new }
    ensures length { vec_len rows.new ≤ vec_len rows.old + 1 }
{
    match slot_by(rows, &row, in_order) {
        Slot::Taken(place) => rows[place] = row,
        Slot::Free(place) => {
            let Ok(()) = rows.insert(place, row) else {
                unreachable!()
            };
        }
    }
}

/// Where a row goes among rows that stand in order or do not.
fn slot_by<R: Keyed>(rows: &[R], row: &R, in_order: bool) -> Slot
    requires in_order { IsTrue in_order → AreInOrder R.key rows.now }
    ensures { IsSlot R.key row.now rows.now result }
{
    if in_order {
        slot_of(rows, row)
    } else {
        slot_among(rows, row)
    }
}

/// Where a row goes among any rows: in place of the first with its key, or else before the first with a greater one.
fn slot_among<R: Keyed>(rows: &[R], row: &R) -> Slot
    ensures { IsSlot R.key row.now rows.now result }
{
    let place = place_of_same(rows, row);
    if place < rows.len() {
        return Slot::Taken(place);
    }
    Slot::Free(place_of_greater(rows, row))
}

/// The place of the first row with the same key, or else how many rows there are.
fn place_of_same<R: Keyed>(rows: &[R], row: &R) -> usize
    ensures { result ≡ position_or_len (λ r. is_same_key (R.key r) (R.key row.now)) rows.now }
{
    rows.iter()
        .position(|other| has_same_key(other, row))
        .unwrap_or(rows.len())
}

/// The place of the first row with a greater key, or else how many rows there are.
fn place_of_greater<R: Keyed>(rows: &[R], row: &R) -> usize
    ensures { result ≡ position_or_len (λ r. is_less_key (R.key row.now) (R.key r)) rows.now }
{
    rows.iter()
        .position(|other| row.is_before(other))
        .unwrap_or(rows.len())
}

/// Whether two rows have the same key: neither is before the other.
fn has_same_key<R: Keyed>(row: &R, other: &R) -> bool
    ensures { result ≡ is_same_key (R.key row.now) (R.key other.now) }
{
    !row.is_before(other) && !other.is_before(row)
}

/// The place of the first placement of this number, or else how many there are. Where the numbers of rows in order run
/// from 1, no other is looked at.
pub(crate) fn place_of_number(rows: &[Placement], number: u64, in_order: bool) -> usize
    requires in_order { IsTrue in_order → AreInOrder placement_key rows.now }
    ensures { result ≡ position_or_len (λ p. p.number == number) rows.now }
{
    let place = number.wrapping_sub(1) as usize;
    if in_order && place < rows.len() && rows[place].number == number {
        return place;
    }
    rows.iter()
        .position(|row| row.number == number)
        .unwrap_or(rows.len())
}
