//! Tests of what the program answers on given words and bytes.

use crate::served::Served;
use crate::top::desk_top;
use desk_io::{MemClock, MemSink, MemSource};
use desk_keeper::KeeperMem;
use desk_types::Tables;
use std::alloc::{AllocError as NoMemory, Global};
use std::process::Abort;
use std::test::Fail;

mod faults;
mod keepers;
mod limits;
mod refusals;
mod reopened;
mod scripts;
mod serving;
mod works;

/// How a call goes: the size of the pieces, and the read and the write that fail, counted from 1;
/// none fails where it is 0.
#[derive(Clone, Copy)]
struct Way {
    cut: u64,
    failing_read: u64,
    failing_write: u64,
}

/// In pieces of this size, with no fault.
fn in_pieces(cut: u64) -> Way {
    faulty(cut, 0, 0)
}

/// In pieces of this size, with this read and this write that fail.
fn faulty(cut: u64, failing_read: u64, failing_write: u64) -> Way {
    Way {
        cut,
        failing_read,
        failing_write,
    }
}

/// What a call wrote, and its status.
#[derive(Drop)]
struct Wrote {
    status: u8,
    output: MemSink,
}

/// A text with line feeds in place of semicolons.
fn lines_of(alloc: Global, text: &str) -> Result<Vec<u8>, NoMemory> {
    let mut bytes = Vec::from_slice(alloc, text.as_bytes())?;
    for byte in bytes.as_mut_slice() {
        if *byte == b';' {
            *byte = b'\n';
        }
    }
    Ok(bytes)
}

/// The number of a call that is to fail, if one is.
fn failing(alloc: Global, number: u64) -> Result<Vec<u64>, NoMemory> {
    let mut numbers = Vec::new(alloc);
    if number > 0 {
        numbers.push(number)?;
    }
    Ok(numbers)
}

/// The words as the program is given them.
fn words_of(alloc: Global, words: &str) -> Result<Vec<String>, NoMemory> {
    let mut owned = Vec::new(alloc);
    for word in words.split(' ') {
        owned.push(String::from_str(alloc, word)?)?;
    }
    Ok(owned)
}

/// What a call is made on, but its keeper.
#[derive(Drop)]
struct Setting {
    words: Vec<String>,
    source: MemSource,
    output: MemSink,
    clock: MemClock,
}

/// Words, an input and an output in memory, and a clock at the moment 100.
fn setting_of(alloc: Global, words: &str, input: &[u8], way: Way) -> Result<Setting, NoMemory> {
    let cut = way.cut.max(1);
    let input = Vec::from_slice(alloc, input)?;
    Ok(Setting {
        words: words_of(alloc, words)?,
        source: MemSource::new(input, cut, failing(alloc, way.failing_read)?),
        output: MemSink::new(alloc, 65_536, cut, failing(alloc, way.failing_write)?)?,
        clock: MemClock::new(vec![in alloc; 100]?),
    })
}

/// Calls the program on an input in memory, with a keeper that holds no rows.
fn call(alloc: Global, words: &str, input: &[u8], way: Way) -> Result<Wrote, NoMemory> {
    let setting = setting_of(alloc, words, input, way)?;
    let keeper = KeeperMem::new(alloc, Tables::new(alloc), Vec::new(alloc));
    let (wrote, _) = call_on(alloc, setting, keeper);
    Ok(wrote)
}

/// Calls the program on a keeper. It gives what was written, and what was left.
fn call_on(alloc: Global, setting: Setting, keeper: KeeperMem) -> (Wrote, Served<KeeperMem>) {
    let Setting {
        words,
        mut source,
        mut output,
        mut clock,
    } = setting;
    let served = desk_top(alloc, &words, &mut source, &mut output, keeper, &mut clock);
    let status = served.status;
    (Wrote { status, output }, served)
}

/// What is shown, the words with a space between them, the input, how the call goes, the status and what is written;
/// lines end with semicolons.
type Case = (
    &'static str,
    &'static str,
    &'static str,
    Faults,
    u8,
    &'static str,
);

/// The size of the pieces, and the read and the write that fail, counted from 1; none fails where it is 0.
type Faults = (u64, u64, u64);

/// Checks the status and the output of calls.
fn check_each(rt: &(impl Abort + AllocGlobal), cases: &[Case]) -> Result<(), Fail> {
    let alloc = rt.alloc();
    for (shows, words, input, (cut, failing_read, failing_write), status, output) in cases {
        let way = faulty(*cut, *failing_read, *failing_write);
        let input = lines_of(alloc, input)?;
        let output = lines_of(alloc, output)?;
        let wrote = call(alloc, words, input.as_slice(), way)?;
        assert_eq!(rt; wrote.status, *status, "{shows}");
        assert_eq!(rt; wrote.output.bytes(), output.as_slice(), "{shows}");
    }
    Ok(())
}
