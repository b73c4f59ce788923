//! Workers that run beside one another, and workers that run in turns.

ghost use Rattle.std.specs.Prelude.{◌≡◌, All, IfOk, vec_len};
ghost use Rattle.desk_hall.specs.Callers.{HasSeenLegal};

use crate::meeting::{MeetingDoor, MeetingLink, Sides};
use crate::serving::{ANSWER, Left, clock_of, link_of, opened, served};
use desk_hall::{Caller, Hall, Held};
use desk_keeper::KeeperMem;
use desk_server::Totals;
use desk_types::Summary;
use query_words::{NoMemory, Text};
use serve_threads::{Worker, work};
use std::alloc::Global;
use std::process::Abort;
use std::sync::Wait;
use std::sync::atomic::AtomicBool;
use std::test::Fail;
use turn_lock::Pass;

/// What is left where both searches are answered.
const BOTH: Left = Left {
    totals: Totals {
        sessions: 2,
        messages: 2,
        door_failed: false,
    },
    entries: 2,
    summary: Summary {
        entries: 2,
        faulted: 0,
        searches: 2,
        placements: 0,
        settled: 0,
        cents: 0,
    },
};

/// How often a link looks for the other one, where they are to meet.
const LOOKS: u64 = 300_000_000;

/// How often it looks where they cannot meet.
const FEW_LOOKS: u64 = 1_000;

// A flag for each of two links.
#[derive(Drop)]
struct Flags {
    first: AtomicBool,
    second: AtomicBool,
}

// Flags that are both down.
fn lowered() -> Flags {
    Flags {
        first: AtomicBool::new(false),
        second: AtomicBool::new(false),
    }
}

// A door of a link on which a search comes.
fn door_of<'f>(alloc: Global, sides: Sides<'f>, looks: u64) -> Result<MeetingDoor<'f>, NoMemory> {
    Ok(MeetingDoor::new(MeetingLink::new(link_of(alloc)?, sides, looks)))
}

// Two doors, whose links look for each other.
fn doors_of<'f>(
    alloc: Global,
    flags: &'f Flags,
    looks: u64,
) -> Result<Vec<MeetingDoor<'f>>, NoMemory>
    ensures { IfOk result (λ doors. vec_len doors ≡ 2) }
{
    let first = Sides {
        mine: &flags.first,
        other: &flags.second,
    };
    let second = Sides {
        mine: &flags.second,
        other: &flags.first,
    };
    Ok(vec![in alloc;
        door_of(alloc, first, looks)?,
        door_of(alloc, second, looks)?,
    ]?)
}

// Whether the link of a door came back with the answer to its search, and nothing else.
fn is_answered(door: &MeetingDoor<'_>) -> bool {
    door.bytes() == Some(ANSWER)
}

// Has a worker with this pass work at a door: how many answers it wrote, and whether the link has one. None for want of
// memory.
fn work_at<R: Wait>(
    rt: &R,
    alloc: Global,
    hall: &Hall<KeeperMem>,
    pass: Pass<Held<KeeperMem>>,
    door: MeetingDoor<'_>,
) -> Option<(u64, bool)>
    requires lock { pass.lock ≡ hall.now.id }
    requires legal { HasSeenLegal pass }
{
    let key = Text::new(alloc, "hostkey1").ok()?;
    let clock = clock_of(alloc).ok()?;
    let mut worker = Worker::new(Caller::new(rt, hall, pass), door, clock);
    work(alloc, &mut worker, &key, 10);
    let (_, door, _, _, messages) = worker.parts();
    Some((messages, is_answered(&door)))
}

// Has two workers with these passes work at these doors, one after another: how many answers each wrote, and whether its
// link has one. None for want of memory.
fn work_in_turns<R: Wait>(
    rt: &R,
    alloc: Global,
    hall: &Hall<KeeperMem>,
    mut passes: Vec<Pass<Held<KeeperMem>>>,
    mut doors: Vec<MeetingDoor<'_>>,
) -> Option<[(u64, bool); 2]>
    requires two { vec_len passes ≡ 2 }
    requires lock { All (λ p. p.lock ≡ hall.now.id) passes.items }
    requires legal { All HasSeenLegal passes.items }
{
    let second = passes.pop()?;
    let first = passes.pop()?;
    let second_door = doors.pop()?;
    let first_door = doors.pop()?;
    let one = work_at(rt, alloc, hall, first, first_door)?;
    let two = work_at(rt, alloc, hall, second, second_door)?;
    Some([one, two])
}

// The same at a new desk.
fn answers_in_turns<R: Wait>(
    rt: &R,
    alloc: Global,
    doors: Vec<MeetingDoor<'_>>,
) -> Option<[(u64, bool); 2]> {
    let desk = opened(alloc)?;
    let Ok((hall, passes)) = Hall::new(alloc, desk, 2) else {
        return None;
    };
    work_in_turns(rt, alloc, &hall, passes, doors)
}

#[test]
fn workers_that_overlap_answer_both(rt: HostRuntime) -> Result<(), Fail> {
    let flags = lowered();
    let mut doors = doors_of(rt.alloc(), &flags, LOOKS)?;
    let left = served(&rt, rt.alloc(), &mut doors).ok_or("no memory")?;
    assert_eq!(rt; left, BOTH);
    assert_eq!(rt; doors.len(), 2);
    assert!(rt; doors.iter().all(is_answered));
    Ok(())
}

#[test]
fn workers_in_turns_do_not(rt: HostRuntime) -> Result<(), Fail> {
    let flags = lowered();
    let doors = doors_of(rt.alloc(), &flags, FEW_LOOKS)?;
    let answers = answers_in_turns(&rt, rt.alloc(), doors).ok_or("no memory")?;
    assert_eq!(rt; answers, [(0, false), (1, true)]);
    Ok(())
}
