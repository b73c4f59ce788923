//! Desks that are served at doors in memory.

ghost use Rattle.std.specs.Prelude.{map, string_bytes, IfOk, IfSome};
ghost use Rattle.command_line.specs.Reading.{told_by_words};
ghost use Rattle.desk_cli.specs.ServeCall.{AreForWorkers};

use super::*;
use crate::serving::serve_top;
use command_line::{WordsFault, desk_words};
use desk_doors::MemDoor;
use desk_io::MemLink;
use std::sync::Wait;
use std::thread::Threads;

/// A message that makes an account.
const MADE: &str =
    "POST /accounts HTTP/1.1;Host: localhost;Desk-Key: hostkey1;Content-Length: 18;;{\"key\":\"secret01\"}";

const TWO: &str = "serve --host-key hostkey1 --port 8080 --workers 2";

const ONE_SESSION: &str = "serve --host-key hostkey1 --port 8080 --workers 2 --sessions 1";

/// What is shown, the words, the accept of each door and the write that fail, or 0, the status and what is written; lines
/// end with semicolons.
type Service = (&'static str, &'static str, u64, u64, u8, &'static str);

const SERVICES: [Service; 6] = [
    (
        "two links at doors that close",
        TWO,
        0,
        0,
        0,
        "served 2 sessions 2 messages;entries 2 faulted 0 searches 0 placements 0 settled 0 cents 0;",
    ),
    (
        "as many sessions as told",
        ONE_SESSION,
        2,
        0,
        0,
        "served 2 sessions 2 messages;entries 2 faulted 0 searches 0 placements 0 settled 0 cents 0;",
    ),
    (
        "doors that fail behind a link",
        TWO,
        2,
        0,
        10,
        "served 2 sessions 2 messages;entries 2 faulted 0 searches 0 placements 0 settled 0 cents 0;door fault;",
    ),
    (
        "doors that fail at once",
        TWO,
        1,
        0,
        10,
        "served 0 sessions 0 messages;entries 0 faulted 0 searches 0 placements 0 settled 0 cents 0;door fault;",
    ),
    ("a write that fails", TWO, 2, 1, 4, ""),
    ("another command", "drill 7 1", 0, 0, 2, "words refused;"),
];

/// A door at which a link of one message waits, and the accept of a number fails, if it is not 0.
fn door_of(alloc: Global, failing_accept: u64) -> Result<MemDoor, NoMemory> {
    let source = MemSource::new(lines_of(alloc, MADE)?, 100, Vec::new(alloc));
    let sink = MemSink::new(alloc, 1_000, 1_000, Vec::new(alloc))?;
    let mut links = Vec::new(alloc);
    links.push(MemLink::new(source, sink))?;
    Ok(MemDoor::new(links, failing(alloc, failing_accept)?))
}

/// A clock at the moment 100.
fn clock_of(alloc: Global) -> Result<MemClock, NoMemory> {
    Ok(MemClock::new(vec![in alloc; 100]?))
}

/// How many workers the words tell.
fn workers_told(alloc: Global, words: &[String]) -> Result<usize, NoMemory>
    ensures { IfOk result (λ n. IfSome (told_by_words (map string_bytes words.now)) (AreForWorkers n n)) }
{
    match desk_words(alloc, words) {
        Ok(told) => Ok(told.workers as usize),
        Err(WordsFault::Refused) => Ok(0),
        Err(WordsFault::NoMemory) => Err(NoMemory),
    }
}

/// Serves a desk without rows at a door for each worker, and gives what was written.
fn serve<R: Threads + Wait + Sync>(
    rt: &R,
    alloc: Global,
    words: &str,
    failing_accept: u64,
    failing_write: u64,
) -> Result<Wrote, NoMemory> {
    let words = words_of(alloc, words)?;
    let workers = workers_told(alloc, &words)?;
    let mut doors = Vec::new(alloc);
    doors.try_resize_with(workers, || door_of(alloc, failing_accept))?;
    let mut clocks = Vec::new(alloc);
    clocks.try_resize_with(workers, || clock_of(alloc))?;
    let mut output = MemSink::new(alloc, 4_096, 4_096, failing(alloc, failing_write)?)?;
    let keeper = KeeperMem::new(alloc, Tables::new(alloc), Vec::new(alloc));
    let served = serve_top(rt, alloc, &words, &mut doors, &mut output, keeper, clocks);
    let status = served.status;
    Ok(Wrote { status, output })
}

#[test]
fn a_desk_is_served_at_its_doors(rt: HostRuntime) -> Result<(), Fail> {
    let alloc = rt.alloc();
    for (shows, words, failing_accept, failing_write, status, output) in SERVICES {
        let output = lines_of(alloc, output)?;
        let wrote = serve(&rt, alloc, words, failing_accept, failing_write)?;
        assert_eq!(rt; wrote.status, status, "{shows}");
        assert_eq!(rt; wrote.output.bytes(), output.as_slice(), "{shows}");
    }
    Ok(())
}
