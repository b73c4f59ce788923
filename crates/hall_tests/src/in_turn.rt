//! Two callers in one thread, on a desk whose keeper fails once.

ghost use Rattle.std.specs.Prelude.{◌≡◌, All, IfSome, vec_len, vec_capacity};
ghost use Rattle.std.specs.List.{AllZip};
ghost use Rattle.turn_lock.specs.Passes.{IsSameCaller};
ghost use Rattle.desk_hall.specs.Callers.{HasSeenLegal};

use crate::calling::{closed, opened, told};
use desk_hall::{Caller, Hall, Held};
use desk_keeper::KeeperMem;
use desk_types::{Call, Entry, Outcome};
use query_words::Text;
use std::alloc::Global;
use std::process::Abort;
use std::sync::Wait;
use std::test::Fail;
use turn_lock::Pass;

/// What the callers are told, the first, the second, the second and the first.
const TOLD: [&str; 4] = [
    "Ok(Made(1))",
    "Err(Keeper { before: 0, after: 1 })",
    "Ok(Made(2))",
    "Ok(Made(3))",
];

/// What the journal has of each call: the caller, the caller's number for it, and how it ended.
const ENTRIES: [(u64, u64, Outcome); 4] = [
    (1, 1, Outcome::Answered),
    (
        2,
        1,
        Outcome::Faulted {
            before: 0,
            after: 1,
        },
    ),
    (2, 2, Outcome::Answered),
    (1, 2, Outcome::Answered),
];

// Makes an account, and says what it was told. None for want of memory.
fn make_account<R: Wait>(
    rt: &R,
    alloc: Global,
    hall: &Hall<KeeperMem>,
    pass: Pass<Held<KeeperMem>>,
) -> Option<(String, Pass<Held<KeeperMem>>)>
    requires lock { pass.lock ≡ hall.now.id }
    requires legal { HasSeenLegal pass }
    ensures same { IfSome result (λ r. IsSameCaller pass r.1) }
    ensures legal { IfSome result (λ r. HasSeenLegal r.1) }
{
    let key = Text::new(alloc, "secret01").ok()?;
    let mut caller = Caller::new(rt, hall, pass);
    let text = told(alloc, &mut caller, 5, Call::AddAccount { key }).ok()?;
    Some((text, caller.finish()))
}

// The calls of two callers, with what they are told. None for want of memory.
fn in_turn<R: Wait>(
    rt: &R,
    alloc: Global,
    hall: &Hall<KeeperMem>,
    mut passes: Vec<Pass<Held<KeeperMem>>>,
) -> Option<(Vec<String>, Vec<Pass<Held<KeeperMem>>>)>
    requires two { vec_len passes ≡ 2 }
    requires lock { All (λ p. p.lock ≡ hall.now.id) passes.items }
    requires legal { All HasSeenLegal passes.items }
    ensures { IfSome result (λ r. AllZip IsSameCaller passes.items r.1.items) }
{
    let second = passes.pop()?;
    let first = passes.pop()?;
    let (one, first) = make_account(rt, alloc, hall, first)?;
    let (two, second) = make_account(rt, alloc, hall, second)?;
    let (three, second) = make_account(rt, alloc, hall, second)?;
    let (four, first) = make_account(rt, alloc, hall, first)?;
    passes.push_reserved(first);
    passes.push_reserved(second);
    let told = vec![in alloc; one, two, three, four].ok()?;
    Some((told, passes))
}

// Checks what the journal has.
fn check_log(rt: &(impl Abort + AllocGlobal), log: &[Entry]) -> Result<(), Fail> {
    assert_eq!(rt; log.len(), ENTRIES.len());
    for (entry, (caller, number, outcome)) in log.iter().zip(ENTRIES.iter()) {
        assert_eq!(rt; entry.caller, *caller);
        assert_eq!(rt; entry.number, *number);
        assert_eq!(rt; entry.outcome, *outcome);
    }
    Ok(())
}

// Checks what the callers are told.
fn check_told(rt: &(impl Abort + AllocGlobal), told: &[String]) -> Result<(), Fail> {
    assert_eq!(rt; told.len(), TOLD.len());
    for (text, wanted) in told.iter().zip(TOLD.iter()) {
        assert_eq!(rt; text.as_str(), *wanted);
    }
    Ok(())
}

#[test]
fn two_callers_are_numbered_apart_and_a_fault_is_the_callers(rt: HostRuntime) -> Result<(), Fail> {
    let alloc = rt.alloc();
    let desk = opened(alloc, vec![in alloc; 3]?).ok_or("no memory")?;
    let Ok((hall, passes)) = Hall::new(alloc, desk, 2) else {
        return Err("no memory".into());
    };
    let Some((told, passes)) = in_turn(&rt, alloc, &hall, passes) else {
        return Err("no memory".into());
    };
    check_told(&rt, told.as_slice())?;
    check_log(&rt, closed(hall, passes).log())
}
