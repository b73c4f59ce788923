//! A lock round a value that has an invariant and a name.
ghost use Rattle.std.specs.Prelude.{◌≡◌, ◌+◌, ◌^◌, ◌<◌, ◌≤◌, length, All};
ghost use Rattle.turn_lock.specs.Lists.{GrowsBy};
ghost use Rattle.turn_lock.specs.Passes.{IsSameCaller};

use crate::{Grows, Pass, TurnLock};
use std::alloc::Global;
use std::process::Abort;
use std::sync::Wait;
use std::test::Fail;

// Seats that were taken, each by the caller of its number, and how many there are, which is the name.
#[derive(Drop)]
struct Seats {
    taken: Vec<u64>,
    most: u64,
    ghost fits: { (length taken.items ≤ most) × (most < 2 ^ 63) },
}

impl Grows for Seats {
    type Item = u64;

    type Name = u64;

    ghost items = { λ s. s.taken.items };

    ghost by = { λ x. x };

    ghost name = { λ s. s.most };

    fn count(&self) -> u64 {
        self.taken.len() as u64
    }
}

impl Seats {
    // Takes a seat for the caller, where one is free and there is memory.
    fn take(&mut self, caller: u64)
        ensures name { self.new.most ≡ self.old.most }
        ensures grown { GrowsBy (λ x. x) caller self.old.taken.items self.new.taken.items }
    {
        if self.count() < self.most {
            let _ = self.taken.push(caller);
        }
    }
}

// Enters, takes a seat, and leaves. It says how many were free: of as many as the lock's name, no more are taken, and
// those that the pass has seen are.
fn take_one<R: Wait>(rt: &R, lock: &TurnLock<Seats>, pass: Pass<Seats>) -> (u64, Pass<Seats>)
    requires { pass.lock ≡ lock.now.id }
    ensures free { length pass.seen + result.0 ≤ lock.now.id.name }
    ensures same { IsSameCaller pass result.1 }
{
    let mut turn = lock.enter(rt, pass);
    let seats = turn.value();
    let free = seats.most - seats.count();
    let caller = turn.number();
    turn.value_mut().take(caller);
    (free, lock.leave(turn))
}

// How many free seats two callers find, the first of them twice. None where there are not two.
fn in_turn<R: Wait>(
    rt: &R,
    lock: &TurnLock<Seats>,
    mut passes: Vec<Pass<Seats>>,
) -> Option<[u64; 3]>
    requires { All (λ p. p.lock ≡ lock.now.id) passes.items }
{
    let second = passes.pop()?;
    let first = passes.pop()?;
    let (free, first) = take_one(rt, lock, first);
    let (then, _) = take_one(rt, lock, second);
    let (last, _) = take_one(rt, lock, first);
    Some([free, then, last])
}

// The same of three seats. None for want of memory.
fn found_free<R: Wait>(rt: &R, alloc: Global) -> Option<[u64; 3]> {
    let seats = Seats {
        taken: Vec::new(alloc),
        most: 3,
    };
    let Ok((lock, passes)) = TurnLock::new(alloc, seats, 2) else {
        return None;
    };
    in_turn(rt, &lock, passes)
}

#[test]
fn callers_find_the_seats_that_are_left(rt: HostRuntime) -> Result<(), Fail> {
    let found = found_free(&rt, rt.alloc()).ok_or("no memory")?;
    assert!(rt; found == [3, 2, 1]);
    Ok(())
}
