//! The lock and its calls.
ghost use Rattle.std.specs.Prelude.{◌≡◌, ◌^◌, ◌<◌, ◌≤◌, [], length, IfOk, IfErr, All, Any, vec_len, vec_capacity};
ghost use Rattle.turn_lock.specs.Lists.{IsPrefix, items_by, GrowsBy};
ghost use Rattle.turn_lock.specs.Passes.{AreNew, AreAll, Unites};
ghost use Rattle.turn_lock.specs.Views.{newcomer};
ghost use Rattle.turn_lock.specs.Steps.{empty_handed};

use crate::grows::Grows;
use crate::line::{Deal, Founding, LockSeat, LockTable, LockWords, Unite};
use crate::pass::Pass;
use crate::steps::{draw, note, pass_on, put, take, wait};
use crate::turn::Turn;
use atomic_table::{Refused, Table};
use std::alloc::{AllocFailed, Global};
use std::marker::Model;
use std::snapshot::Snapshot;
use std::sync::Wait;

/// A lock round one value, for 1 to 64 callers. Contracts see which lock it is, with the name of the value that it was made with, and the number of callers.
/// Threads share it by reference. Where it is dropped, so is the value.
#[derive(Drop)]
pub struct TurnLock<V: Grows> {
    table: LockTable<V>,
}

impl<V: Grows> Model for TurnLock<V> {
    ghost use Rattle.std.specs.Prelude.{◌≡◌, ◌<◌};
    ghost use Rattle.turn_lock.specs.LockValues.{LockValue, lock_code, lock_value};

    ghost Value = { LockValue V.Name };

    ghost coded = { lock_code V.Name.code };

    ghost view = { λ l. lock_value l.table.shared.table_id (V.name l.table.shared.key.value.value) l.table.shared.key.callers };

    ghost invariant = { λ l. (l.table.shared.table_id.words ≡ 3) × (l.table.shared.table_id.slots ≡ 1) × (0 < l.table.shared.key.callers) };
}

impl<V: Grows> TurnLock<V> {
    /// A lock round a value whose list is empty, and a pass for each of 1 to 64 callers, numbered from 1, which has seen nothing.
    /// For want of memory, and for nothing else, the value comes back.
    pub fn new(alloc: Global, value: V, callers: u64) -> Result<(TurnLock<V>, Vec<Pass<V>>), V>
        requires callers { (1 ≤ callers) × (callers ≤ 64) }
        requires empty { V.items value ≡ [] }
        ensures name { IfOk result (λ made. made.0.id.name ≡ V.name value) }
        ensures callers { IfOk result (λ made. made.0.callers ≡ callers) }
        ensures passes { IfOk result (λ made. AreNew made.0 made.1.items) }
        ensures err { IfErr result (λ v. v ≡ value) }
    {
        let founding = Founding {
            callers,
            value: Snapshot::of(&value),
        };
        let Ok(passes) = Vec::with_capacity(alloc, callers as usize) else {
            return Err(value);
        };
        let (table, seat) = lay(alloc, value, &founding)?;
        let passes = deal(&table.shared, seat, callers, passes);
        Ok((TurnLock { table }, passes))
    }

    /// Takes the caller's turn, once all that came before have left. The value found has the lock's name. What the pass has seen begins the list found, which has no items by its number but those.
    /// It waits, for ever where a turn before it never ends: it looks again, and lets other threads run between looks.
    pub fn enter<R: Wait>(&self, rt: &R, pass: Pass<V>) -> Turn<V>
        requires lock { pass.lock ≡ self.now.id }
        ensures lock { result.lock ≡ pass.lock }
        ensures number { result.number ≡ pass.number }
        ensures found { result.found ≡ V.items result.value }
        ensures name { V.name result.value ≡ self.now.id.name }
        ensures seen { IsPrefix pass.seen result.found }
        ensures own { items_by V.by pass.number result.found ≡ items_by V.by pass.number pass.seen }
    {
        let number = pass.number();
        let mut seat = pass.into_seat();
        let ticket = draw(&self.table.shared, &mut seat);
        wait(rt, &self.table.shared, &mut seat, ticket);
        let value = take(&self.table.shared, &mut seat);
        Turn::of(number, seat, value)
    }

    /// Ends a turn, with a value of the lock's name whose list grew by items of this caller alone, or not at all, and has fewer than 2^63. The pass has then seen that list.
    pub fn leave(&self, turn: Turn<V>) -> Pass<V>
        requires lock { turn.lock ≡ self.now.id }
        requires name { V.name turn.value ≡ self.now.id.name }
        requires grown { GrowsBy V.by turn.number turn.found (V.items turn.value) }
        requires room { length (V.items turn.value) < 2 ^ 63 }
        ensures lock { result.lock ≡ turn.lock }
        ensures number { result.number ≡ turn.number }
        ensures seen { result.seen ≡ V.items turn.value }
    {
        let number = turn.number();
        let (mut seat, value) = turn.into_parts();
        let count = value.count();
        put(&self.table.shared, &mut seat, value);
        note(&self.table.shared, &mut seat, count);
        pass_on(&self.table.shared, &mut seat);
        Pass::of(number, seat)
    }

    /// Ends the lock, with all its passes, and gives the value, which has the lock's name. Each pass's list begins the value's, which has no items by its number but those, and none by another number than theirs.
    pub fn close(self, passes: Vec<Pass<V>>) -> V
        requires passes { AreAll self passes.items }
        ensures name { V.name result ≡ self.id.name }
        ensures seen { All (λ p. IsPrefix p.seen (V.items result)) passes.items }
        ensures own { All (λ p. items_by V.by p.number (V.items result) ≡ items_by V.by p.number p.seen) passes.items }
        ensures others { All (λ x. Any (λ p. p.number ≡ V.by x) passes.items) (V.items result) }
    {
        let TurnLock { table } = self;
        let seat = unite(&table.shared, passes);
        let mut closed = table.close_with(seat);
        let value = closed.take(0);
        closed.free();
        match value {
            Some(value) => value,
            None => unreachable!(),
        }
    }
}

// The table of a lock round this value, and its first seat.
fn lay<V: Grows>(
    alloc: Global,
    value: V,
    founding: &Founding<V>,
) -> Result<(LockTable<V>, LockSeat<V>), V>
    requires callers { (1 ≤ founding.now.callers) × (founding.now.callers ≤ 64) }
    requires value { founding.now.value.value ≡ value }
    requires empty { V.items value ≡ [] }
    ensures words { IfOk result (λ made. (made.0.shared.table_id.words ≡ 3) × (made.0.shared.table_id.slots ≡ 1)) }
    ensures key { IfOk result (λ made. made.0.shared.key ≡ founding.now) }
    ensures seat { IfOk result (λ made. (made.1.table_id ≡ made.0.shared.table_id) × (made.1.me ≡ empty_handed (newcomer 1 (V.name value)))) }
    ensures err { IfErr result (λ v. v ≡ value) }
{
    let mut slots = Vec::new(alloc);
    if let Err(failed) = slots.push(Some(value)) {
        let AllocFailed { value } = failed;
        slots.destroy_empty();
        return match value {
            Some(value) => Err(value),
            None => unreachable!(),
        };
    }
    match Table::new(alloc, &[0, 0, 0], slots, founding) {
        Ok(made) => Ok(made),
        Err(Refused { mut slots }) => {
            let Some(Some(value)) = slots.pop() else {
                unreachable!()
            };
            slots.destroy_empty();
            Err(value)
        }
    }
}

// A pass for each caller, the first with this seat.
fn deal<V: Grows>(
    words: &LockWords<V>,
    first: LockSeat<V>,
    callers: u64,
    mut passes: Vec<Pass<V>>,
) -> Vec<Pass<V>>
    requires words { (first.table_id ≡ words.now.table_id) × (words.now.table_id.words ≡ 3) }
    requires first { first.me ≡ empty_handed (newcomer 1 (V.name words.now.key.value.value)) }
    requires callers { (1 ≤ callers) × (callers ≡ words.now.key.callers) }
    requires room { (passes.items ≡ []) × (callers ≤ vec_capacity passes) }
    ensures { AreNew record { id = record { table = words.now.table_id; name = V.name words.now.key.value.value }; callers = callers } result.items }
{
    let mut seat = first;
    for number in 1..callers {
        let next = words.split_seat::<Deal>(&mut seat);
        passes.push_reserved(Pass::of(number, seat));
        seat = next;
    }
    passes.push_reserved(Pass::of(callers, seat));
    passes
}

// One seat that knows what all these passes know.
fn unite<V: Grows>(words: &LockWords<V>, mut passes: Vec<Pass<V>>) -> LockSeat<V>
    requires words { words.now.table_id.words ≡ 3 }
    requires some { 0 < vec_len passes }
    requires passes { All (λ p. p.lock.table ≡ words.now.table_id) passes.items }
    ensures table { result.table_id ≡ words.now.table_id }
    ensures knows { Unites passes.items result.me }
{
    let Some(last) = passes.pop() else {
        unreachable!()
    };
    let mut seat = last.into_seat();
    while let Some(pass) = passes.pop() {
        words.join_seat::<Unite>(&mut seat, pass.into_seat());
    }
    seat
}
