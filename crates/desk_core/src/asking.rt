//! Asking the keeper.

ghost use Rattle.std.specs.Prelude.{◌≡◌, ◌≢◌, IfOk, IsTrue, map, Result};
ghost use Rattle.desk_types.specs.declared.tables.Change.{Change};
ghost use Rattle.desk_keeper.specs.declared.keeper.KeeperFault.{KeeperFault};
ghost use Rattle.desk_core.specs.Asking.{IsAsked};
ghost use Rattle.desk_core.specs.Planned.{listed, needs_no_room};

use crate::plan::Changes;
use desk_keeper::{Keeper, KeeperFault};
use desk_types::{Change, Placement};
use std::alloc::{AllocError, Global};

/// Asks the keeper to put changes, where there are any. It takes memory before it asks, and none for a fate.
pub(crate) fn ask<K: Keeper>(
    alloc: Global,
    keeper: &mut K,
    changes: &Changes,
) -> Result<(), KeeperFault>
    ensures asked { IsAsked (K.keeper keeper.old) (listed changes.now) result (K.keeper keeper.new) }
    ensures no_memory { IsTrue (needs_no_room changes.now) → IsTrue (K.keeper keeper.old).fates_free
        → result ≢ Err KeeperFault.NoMemory }
{
    match changes {
        Changes::Nothing => Ok(()),
        Changes::Fate { number, fate } => {
            let change = [Change::PutFate {
                number: *number,
                fate: *fate,
            }];
            keeper.apply(&change)
        }
        Changes::Placed(list) => {
            let Ok(list) = changes_of(alloc, list.as_slice()) else {
                return Err(KeeperFault::NoMemory);
            };
            ask_for(keeper, list.as_slice())
        }
        Changes::Catalogue(list) => ask_for(keeper, list.as_slice()),
    }
}

/// Asks the keeper to put a list of changes, where it is not empty.
fn ask_for<K: Keeper>(keeper: &mut K, list: &[Change]) -> Result<(), KeeperFault>
    ensures { IsAsked (K.keeper keeper.old) list.now result (K.keeper keeper.new) }
{
    if list.is_empty() {
        return Ok(());
    }
    keeper.apply(list)
}

/// The changes that put these placements.
fn changes_of(alloc: Global, list: &[Placement]) -> Result<Vec<Change>, AllocError>
    ensures { IfOk result (λ changes. changes.items ≡ map Change.PutPlacement list.now) }
{
    let mut changes = Vec::with_capacity(alloc, list.len())?;
    for placement in list {
        changes.push(Change::PutPlacement(*placement))?;
    }
    Ok(changes)
}
