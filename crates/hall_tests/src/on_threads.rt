//! Eight callers, each in a thread of its own.

ghost use Rattle.std.specs.Prelude.{◌≡◌, All, vec_len, vec_capacity};
ghost use Rattle.std.specs.List.{AllZip};
ghost use Rattle.std.specs.Thread.{IsSync};
ghost use Rattle.turn_lock.specs.Passes.{IsSameCaller};
ghost use Rattle.desk_hall.specs.Callers.{HasSeenLegal};

use crate::calling::{closed, opened, text_of, told};
use desk_core::Desk;
use desk_hall::{Caller, Hall, Held};
use desk_keeper::KeeperMem;
use desk_types::{Call, Entry};
use query_words::{NoMemory, Text, Twin};
use std::alloc::Global;
use std::process::Abort;
use std::sync::Wait;
use std::test::Fail;
use std::thread::{Threads, join};
use turn_lock::Pass;

// A caller's pass after its calls, and what each was told.
#[derive(Drop)]
struct Run {
    pass: Pass<Held<KeeperMem>>,
    told: Vec<String>,
}

// The same of several callers.
#[derive(Drop)]
struct Runs {
    passes: Vec<Pass<Held<KeeperMem>>>,
    told: Vec<Vec<String>>,
}

// The line that a caller makes by its call of this number.
fn line_of(alloc: Global, number: u64) -> Result<Call, NoMemory> {
    Ok(Call::AddLine {
        account: number / 4 + 1,
        key: Text::new(alloc, "secret01")?,
        campaign: 1,
        bid: number % 100 + 1,
        pattern: Text::new(alloc, "shoes")?,
        headline: Text::new(alloc, "Shoes")?,
        link: Text::new(alloc, "http://shoes.example/")?,
    })
}

// A caller's call of this number: it makes an account, a campaign or a line of an account that another may have made,
// or it searches.
fn call_of(alloc: Global, number: u64) -> Result<Call, NoMemory> {
    match number % 4 {
        0 => Ok(Call::AddAccount {
            key: Text::new(alloc, "secret01")?,
        }),
        1 => Ok(Call::AddCampaign {
            account: number / 4 + 1,
            key: Text::new(alloc, "secret01")?,
            budget: 100_000,
        }),
        2 => line_of(alloc, number),
        _ => Ok(Call::Search {
            text: Text::new(alloc, "red shoes")?,
            places: None,
        }),
    }
}

// Makes so many calls, and stops early for want of memory.
fn call_all<R: Wait>(
    rt: &R,
    alloc: Global,
    hall: &Hall<KeeperMem>,
    pass: Pass<Held<KeeperMem>>,
    calls: u64,
) -> Run
    requires lock { pass.lock ≡ hall.now.id }
    requires legal { HasSeenLegal pass }
    ensures { IsSameCaller pass result.pass }
{
    let mut texts = Vec::new(alloc);
    let mut caller = Caller::new(rt, hall, pass);
    for number in 0..calls {
        let Ok(call) = call_of(alloc, number) else {
            break;
        };
        let Ok(text) = told(alloc, &mut caller, number, call) else {
            break;
        };
        let _ = texts.push(text);
    }
    Run {
        pass: caller.finish(),
        told: texts,
    }
}

// The same for each of these passes, in a thread of its own.
fn call_all_at_once<R: Threads + Wait + Sync>(
    rt: &R,
    alloc: Global,
    hall: &Hall<KeeperMem>,
    mut passes: Vec<Pass<Held<KeeperMem>>>,
    calls: u64,
) -> Runs
    requires lock { All (λ p. p.lock ≡ hall.now.id) passes.items }
    requires legal { All HasSeenLegal passes.items }
    ensures same { AllZip IsSameCaller passes.items result.passes.items }
    ensures room { (vec_len result.passes ≡ vec_len passes) × (vec_capacity result.passes ≡ vec_capacity passes) }
{
    let Some(last) = passes.pop() else {
        return Runs {
            passes,
            told: Vec::new(alloc),
        };
    };
    let (mut rest, last) = join(
        rt,
        || -> Runs
            requires sync { IsSync R.row }
            requires lock { All (λ p. p.lock ≡ hall.now.id) passes.items }
            requires legal { All HasSeenLegal passes.items }
            ensures same { AllZip IsSameCaller passes.items result.passes.items }
            ensures count { vec_len result.passes ≡ vec_len passes }
            ensures room { vec_capacity result.passes ≡ vec_capacity passes }
        { call_all_at_once(rt, alloc, hall, passes, calls) },
        || -> Run
            requires lock { last.lock ≡ hall.now.id }
            requires legal { HasSeenLegal last }
            ensures { IsSameCaller last result.pass }
        { call_all(rt, alloc, hall, last, calls) },
    );
    let Run { pass, told } = last;
    rest.passes.push_reserved(pass);
    let _ = rest.told.push(told);
    rest
}

// What the call of this entry was told.
fn told_of<'a>(told: &'a [Vec<String>], entry: &Entry) -> Option<&'a str> {
    let caller = entry.caller.checked_sub(1)?;
    let number = entry.number.checked_sub(1)?;
    let texts = told.get(caller as usize)?;
    Some(texts.get(number as usize)?.as_str())
}

// Makes the calls of a journal again, on a desk for nobody else, and counts those that are told the same. None for want
// of memory.
fn count_same(alloc: Global, log: &[Entry], told: &[Vec<String>]) -> Option<usize> {
    let mut desk = opened(alloc, Vec::new(alloc))?;
    let mut same = 0usize;
    for entry in log {
        let result = desk.call(entry.caller, entry.moment, entry.call.twin().ok()?);
        let text = text_of(alloc, &result).ok()?;
        if told_of(told, entry) == Some(text.as_str()) {
            same = same.saturating_add(1);
        }
    }
    Some(same)
}

// The desk that eight callers leave, and what each was told. None for want of memory.
fn left_by_eight<R: Threads + Wait + Sync>(
    rt: &R,
    alloc: Global,
    calls: u64,
) -> Option<(Desk<KeeperMem>, Vec<Vec<String>>)> {
    let desk = opened(alloc, Vec::new(alloc))?;
    let Ok((hall, passes)) = Hall::new(alloc, desk, 8) else {
        return None;
    };
    let Runs { passes, told } = call_all_at_once(rt, alloc, &hall, passes, calls);
    Some((closed(hall, passes), told))
}

// How many calls the journal that they leave has, and how many of those are told the same again. None for want of
// memory.
fn counts_of_eight<R: Threads + Wait + Sync>(
    rt: &R,
    alloc: Global,
    calls: u64,
) -> Option<(usize, usize)> {
    let (desk, told) = left_by_eight(rt, alloc, calls)?;
    let same = count_same(alloc, desk.log(), told.as_slice())?;
    Some((desk.log().len(), same))
}

#[test]
fn eight_callers_are_told_as_one_after_another(rt: HostRuntime) -> Result<(), Fail> {
    let (all, same) = counts_of_eight(&rt, rt.alloc(), 1_000).ok_or("no memory")?;
    assert_eq!(rt; all, 8_000);
    assert_eq!(rt; same, 8_000);
    Ok(())
}
