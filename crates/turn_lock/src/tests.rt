ghost use Rattle.std.specs.Prelude.{◌≡◌, ◌^◌, ◌<◌, ◌≤◌, length, All, vec_len, vec_capacity};
ghost use Rattle.std.specs.List.{AllZip};
ghost use Rattle.std.specs.Thread.{IsSync};
ghost use Rattle.turn_lock.specs.Lists.{GrowsBy, IsPrefix};
ghost use Rattle.turn_lock.specs.Passes.{AreAll, IsSameCaller};

use crate::{Grows, Pass, Turn, TurnLock};
use std::alloc::Global;
use std::process::Abort;
use std::sync::Wait;
use std::test::Fail;
use std::thread::{Threads, join};

mod seats;

// A list of numbers, each by the caller of that number.
#[derive(Drop)]
struct Numbers {
    numbers: Vec<u64>,
}

impl Grows for Numbers {
    type Item = u64;

    type Name = ();

    ghost items = { λ n. n.numbers.items };

    ghost by = { λ x. x };

    ghost name = { λ n. tt };

    fn count(&self) -> u64 {
        self.numbers.len() as u64
    }
}

// Adds the caller's number, if there is memory and room for it.
fn add_one(turn: &mut Turn<Numbers>)
    requires { turn.old.found ≡ turn.old.value.numbers.items }
    ensures lock { turn.new.lock ≡ turn.old.lock }
    ensures number { turn.new.number ≡ turn.old.number }
    ensures found { turn.new.found ≡ turn.old.found }
    ensures grown { GrowsBy (λ x. x) turn.new.number turn.new.found turn.new.value.numbers.items }
    ensures room { length turn.new.value.numbers.items < 2 ^ 63 }
{
    let number = turn.number();
    let _ = turn.value_mut().numbers.push(number);
}

// Enters, and leaves the list as it was. It says how many numbers it found.
fn count_in<R: Wait>(rt: &R, lock: &TurnLock<Numbers>, pass: Pass<Numbers>) -> (u64, Pass<Numbers>)
    requires { pass.lock ≡ lock.now.id }
    ensures { IsSameCaller pass result.1 }
{
    let turn = lock.enter(rt, pass);
    let count = turn.value().count();
    (count, lock.leave(turn))
}

// Looks once, and then enters so many times, and adds the caller's number each time.
fn add<R: Wait>(rt: &R, lock: &TurnLock<Numbers>, pass: Pass<Numbers>, rounds: u64) -> Pass<Numbers>
    requires { pass.lock ≡ lock.now.id }
    ensures { IsSameCaller pass result }
{
    let (_, mut pass) = count_in(rt, lock, pass);
    for _ in 0..rounds {
        let mut turn = lock.enter(rt, pass);
        add_one(&mut turn);
        pass = lock.leave(turn);
    }
    pass
}

// The same for each of these passes, in a thread of its own.
fn add_all<R: Threads + Wait + Sync>(
    rt: &R,
    lock: &TurnLock<Numbers>,
    mut passes: Vec<Pass<Numbers>>,
    rounds: u64,
) -> Vec<Pass<Numbers>>
    requires { All (λ p. p.lock ≡ lock.now.id) passes.items }
    ensures same { AllZip IsSameCaller passes.items result.items }
    ensures room { (vec_len result ≡ vec_len passes) × (vec_capacity result ≡ vec_capacity passes) }
{
    let Some(last) = passes.pop() else {
        return passes;
    };
    let (mut rest, last) = join(
        rt,
        || -> Vec<Pass<Numbers>>
            requires { IsSync R.row × All (λ p. p.lock ≡ lock.now.id) passes.items }
            ensures { AllZip IsSameCaller passes.items result.items × (vec_len result ≡ vec_len passes) × (vec_capacity result ≡ vec_capacity passes) }
        { add_all(rt, lock, passes, rounds) },
        || -> Pass<Numbers>
            requires { last.lock ≡ lock.now.id }
            ensures { IsSameCaller last result }
        { add(rt, lock, last, rounds) },
    );
    rest.push_reserved(last);
    rest
}

// Closes the lock. The list of each pass begins the list that is left.
fn end(lock: TurnLock<Numbers>, passes: Vec<Pass<Numbers>>) -> Numbers
    requires { AreAll lock passes.items }
    ensures { All (λ p. IsPrefix p.seen result.numbers.items) passes.items }
{
    lock.close(passes)
}

// What so many callers leave, who each enter so many times. None for want of memory.
fn numbers_of<R: Threads + Wait + Sync>(
    rt: &R,
    alloc: Global,
    callers: u64,
    rounds: u64,
) -> Option<Numbers>
    requires { (1 ≤ callers) × (callers ≤ 64) }
{
    let value = Numbers {
        numbers: Vec::new(alloc),
    };
    let Ok((lock, passes)) = TurnLock::new(alloc, value, callers) else {
        return None;
    };
    let passes = add_all(rt, &lock, passes, rounds);
    Some(end(lock, passes))
}

fn count_of(numbers: &[u64], number: u64) -> usize {
    numbers.iter().filter(|n| **n == number).count()
}

// A lock, its passes and its turns go to other threads, and threads share the lock.
fn goes<T: Send>(_: &T) {}

fn is_shared<T: Sync>(_: &T) {}

fn crosses<V: Grows + Send>(lock: &TurnLock<V>, pass: &Pass<V>, turn: &Turn<V>) {
    goes(lock);
    is_shared(lock);
    goes(pass);
    goes(turn);
}

// The list has so many items in all, and as many of each caller as it entered times.
fn check_run<R: Threads + Wait + Abort + Sync>(
    rt: &R,
    alloc: Global,
    callers: u64,
    rounds: u64,
    total: u64,
) -> Result<(), Fail>
    requires { (1 ≤ callers) × (callers ≤ 64) }
{
    let left = numbers_of(rt, alloc, callers, rounds).ok_or("no memory")?;
    assert_eq!(rt; left.count(), total, "{callers} callers");
    for number in 1..callers + 1 {
        let own = count_of(left.numbers.as_slice(), number) as u64;
        assert_eq!(rt; own, rounds, "caller {number} of {callers}");
    }
    Ok(())
}

#[test]
fn each_caller_adds_its_own_items(rt: HostRuntime) -> Result<(), Fail> {
    check_run(&rt, rt.alloc(), 1, 10, 10)?;
    check_run(&rt, rt.alloc(), 2, 100, 200)?;
    check_run(&rt, rt.alloc(), 8, 2000, 16000)?;
    check_run(&rt, rt.alloc(), 64, 5, 320)
}

#[test]
fn value_comes_back_without_memory(rt: HostRuntime) -> Result<(), Fail> {
    let value = Numbers {
        numbers: Vec::new(rt.alloc()),
    };
    match TurnLock::new(rt.alloc(), value, 2) {
        Ok((_lock, passes)) => {
            let numbers: Vec<u64> = passes.iter().map(|p| p.number()).collect(rt.alloc())?;
            assert_eq!(rt; numbers.as_slice(), [1, 2].as_slice());
        }
        Err(value) => assert_eq!(rt; value.count(), 0),
    }
    Ok(())
}
