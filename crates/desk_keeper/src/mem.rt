//! A keeper that holds its rows in memory.

ghost use Rattle.std.specs.Prelude.{◌≡◌, ◌≢◌, ◌↔◌, ◌∷◌, ℕ, [], IfErr, IfOk, IfSome, IsTrue, OnErr, IfNone, OnOk, Err, Some};
ghost use Rattle.desk_types.specs.declared.rows.Fate.{Fate};
ghost use Rattle.desk_types.specs.declared.tables.Change.TheVariants.{PutFate};
ghost use Rattle.desk_types.specs.Sound.{StandInOrder};
ghost use Rattle.desk_types.specs.Tables.{placement_of, put_all, put_fate};
ghost use Rattle.desk_keeper.specs.declared.keeper.KeeperFault.{KeeperFault};
ghost use Rattle.desk_keeper.specs.Keeping.{HasCause, IsSameKeeper};

use crate::keeper::{Keeper, KeeperFault};
use crate::rows::{Rows, set_fate};
use crate::slots::are_in_order;
use desk_types::{Change, Fate, Tables};
use query_words::{List, Twin};
use std::alloc::{AllocError, Global};
use std::marker::Model;
use std::mem;

/// A keeper that holds its rows in memory, and fails at calls that were told beforehand: calls of `load` and `apply` are
/// numbered together, from 1. It tells its tables, sets one fate without memory, and never fails where no call is to.
#[derive(Drop)]
pub struct KeeperMem {
    alloc: Global,
    tables: Tables,
    /// Whether all rows stand in the order of their keys.
    in_order: bool,
    fails: Vec<u64>,
    calls: u64,
    faults: u64,
}

impl Model for KeeperMem {
    ghost use Rattle.std.specs.Prelude.{◌==◌, true, length, Some, IsTrue};
    ghost use Rattle.desk_types.specs.Sound.{StandInOrder};
    ghost use Rattle.desk_keeper.specs.KeeperView.{KeeperView};

    ghost Value = { KeeperView };

    ghost view = { λ k. record {
      held = Some k.tables;
      faults = k.faults;
      fates_free = true;
      sure = length k.fails.items == 0;
    } };

    ghost invariant = { λ k. IsTrue k.in_order → StandInOrder k.tables };
}

impl KeeperMem {
    /// A keeper that holds these tables, and fails at the calls of these numbers.
    pub fn new(alloc: Global, tables: Tables, fails: Vec<u64>) -> KeeperMem
        ensures held { result.held ≡ Some tables }
        ensures faults { result.faults ≡ 0 }
        ensures fates_free { IsTrue result.fates_free }
        ensures sure { IsTrue result.sure ↔ (fails.items ≡ []) }
    {
        let in_order = stand_in_order(&tables);
        KeeperMem {
            alloc,
            tables,
            in_order,
            fails,
            calls: 0,
            faults: 0,
        }
    }

    /// The tables that it holds.
    pub fn tables(&self) -> &Tables
        ensures { self.now.held ≡ Some result.now }
    {
        &self.tables
    }

    /// Counts a call, which fails where its number is among those that do.
    fn begin(&mut self) -> Result<(), KeeperFault>
        ensures held { self.new.held ≡ self.old.held }
        ensures same { IsSameKeeper self.old self.new }
        ensures cause { IfErr result (HasCause self.old self.new) }
        ensures wants_no_memory { result ≢ Err KeeperFault.NoMemory }
    {
        self.calls = self.calls.saturating_add(1);
        if !self.fails.contains(&self.calls) {
            return Ok(());
        }
        self.faults = self.faults.saturating_add(1);
        Err(KeeperFault::Failed)
    }
}

impl Keeper for KeeperMem {
    ghost keeper = { λ k. k };

    fn load(&mut self) -> Result<Tables, KeeperFault> {
        self.begin()?;
        self.tables.twin().map_err(|_| KeeperFault::NoMemory)
    }

    fn apply(&mut self, changes: &[Change]) -> Result<(), KeeperFault> {
        self.begin()?;
        if let Some((number, fate)) = only_fate(changes) {
            put_fate(self.alloc, &mut self.tables, number, fate, self.in_order);
            return Ok(());
        }
        put_all(self.alloc, &mut self.tables, changes, self.in_order).map_err(
            |_| KeeperFault::NoMemory,
        )
    }

    fn faults(&self) -> u64 {
        self.faults
    }
}

/// Whether the rows of tables stand in the order of their keys.
fn stand_in_order(tables: &Tables) -> bool
    ensures { IsTrue result → StandInOrder tables.now }
{
    are_in_order(tables.accounts.as_slice())
        && are_in_order(tables.campaigns.as_slice())
        && are_in_order(tables.budgets.as_slice())
        && are_in_order(tables.lines.as_slice())
        && are_in_order(tables.negatives.as_slice())
        && are_in_order(tables.placements.as_slice())
        && are_in_order(tables.batches.as_slice())
}

/// The placement's number and its fate, where the changes are one fate.
fn only_fate(changes: &[Change]) -> Option<(u64, Fate)>
    ensures one { IfSome result (λ one. changes.now ≡ PutFate one.0 one.1 ∷ []) }
    ensures other { IfNone result ((number : ℕ) (fate : Fate) → changes.now ≢ PutFate number fate ∷ []) }
{
    let [change] = changes else {
        return None;
    };
    match change {
        Change::PutFate { number, fate } => Some((*number, *fate)),
        _ => None,
    }
}

/// Sets the fate of a placement of tables, where it is there. It takes no memory.
fn put_fate(alloc: Global, tables: &mut Tables, number: u64, fate: Fate, in_order: bool)
    requires in_order { IsTrue in_order → StandInOrder tables.old }
    ensures { tables.new ≡ put_fate tables.old fate (placement_of tables.old number) }
{
    let mut rows = mem::replace(&mut tables.placements, List::new(alloc)).into_vec();
    set_fate(&mut rows, number, fate, in_order);
    tables.placements = List::from_vec(rows);
}

/// Puts changes to tables in order, all or none.
fn put_all(
    alloc: Global,
    tables: &mut Tables,
    changes: &[Change],
    in_order: bool,
) -> Result<(), AllocError>
    requires in_order { IsTrue in_order → StandInOrder tables.old }
    ensures put { OnOk result (tables.new ≡ put_all tables.old changes.now) }
    ensures same { OnErr result (tables.new ≡ tables.old) }
{
    let copies = copied(alloc, changes)?;
    let mut rows = Rows::of(mem::replace(tables, Tables::new(alloc)));
    let room = rows.make_room(copies.len());
    if room.is_ok() {
        rows.put_all(copies, in_order);
    }
    *tables = rows.into_tables();
    room
}

/// Equal changes.
fn copied(alloc: Global, changes: &[Change]) -> Result<Vec<Change>, AllocError>
    ensures { IfOk result (λ copies. copies.items ≡ changes.now) }
{
    let mut copies = Vec::new(alloc);
    for change in changes {
        copies.push(change.twin()?)?;
    }
    Ok(copies)
}
