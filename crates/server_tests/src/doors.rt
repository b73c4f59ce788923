//! A door that fails beside one that does not.

ghost use Rattle.std.specs.Prelude.{◌≡◌, IfOk, vec_len};

use crate::serving::{Left, link_of, served};
use desk_doors::MemDoor;
use desk_server::Totals;
use desk_types::Summary;
use query_words::NoMemory;
use std::alloc::Global;
use std::process::Abort;
use std::test::Fail;

/// What is left where one search is answered, and the other door failed.
const ONE: Left = Left {
    totals: Totals {
        sessions: 1,
        messages: 1,
        door_failed: true,
    },
    entries: 1,
    summary: Summary {
        entries: 1,
        faulted: 0,
        searches: 1,
        placements: 0,
        settled: 0,
        cents: 0,
    },
};

// A door of one link, whose accept of a number fails.
fn door_of(alloc: Global, failing: u64) -> Result<MemDoor, NoMemory> {
    let links = vec![in alloc; link_of(alloc)?]?;
    Ok(MemDoor::new(links, vec![in alloc; failing]?))
}

// A door that fails at once, and one that does not fail.
fn doors_of(alloc: Global) -> Result<Vec<MemDoor>, NoMemory>
    ensures { IfOk result (λ doors. vec_len doors ≡ 2) }
{
    Ok(vec![in alloc; door_of(alloc, 1)?, door_of(alloc, 0)?]?)
}

#[test]
fn a_door_that_fails_leaves_the_other_worker(rt: HostRuntime) -> Result<(), Fail> {
    let mut doors = doors_of(rt.alloc())?;
    let left = served(&rt, rt.alloc(), &mut doors).ok_or("no memory")?;
    assert_eq!(rt; left, ONE);
    Ok(())
}
