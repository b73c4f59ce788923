//! Reads and writes that fail, and ends of sessions.

use super::*;
use crate::status_of;
use std::io::{self, ErrorKind};

#[test]
fn words_that_want_memory_end_with_5(rt: HostRuntime) -> Result<(), Fail> {
    let alloc = rt.alloc();
    for (kind, status) in [(ErrorKind::OutOfMemory, 5), (ErrorKind::InvalidData, 2)] {
        let mut source = MemSource::new(Vec::new(alloc), 1, Vec::new(alloc));
        let mut sink = MemSink::new(alloc, 100, 100, Vec::new(alloc))?;
        let mut clock = MemClock::new(Vec::new(alloc));
        let words = Err(io::Error::from(kind));
        let found = status_of(alloc, words, &mut source, &mut sink, &mut clock);
        assert_eq!(rt; found, status);
    }
    Ok(())
}

const AUCTION: &str = "auction 5 0 2;ad 1.1.1 100 10 1000;ad 2.1.1 80 10 1000;";

const CALLS: &str = "100 account secret01;100 campaign 1 secret01 1000;";

const ACCOUNT: &str =
    "POST /accounts HTTP/1.1;Host: localhost:8080;Desk-Key: hostkey1;Content-Length: 18;;{\"key\":\"secret01\"}";

const NOT_BUILT: &str =
    "HTTP/1.1 400 Bad Request\r;Content-Type: application/json\r;Content-Length: 40\r;Connection: close\r;\r;{\"code\":0,\"detail\":\"\",\"name\":\"NotBuilt\"}";

const FAULTS: [Case; 19] = [
    (
        "the first read",
        "auction",
        AUCTION,
        (4_096, 1, 0),
        3,
        "read fault;",
    ),
    (
        "a read in a line",
        "auction",
        AUCTION,
        (7, 4, 0),
        3,
        "read fault;",
    ),
    (
        "the read of the end",
        "auction",
        AUCTION,
        (4_096, 2, 0),
        3,
        "read fault;",
    ),
    (
        "a bad line, and then a failing read",
        "auction",
        "auction 5 0 1;ad;",
        (4_096, 2, 0),
        8,
        "bad line 2;",
    ),
    ("the first write", "auction", AUCTION, (4_096, 0, 1), 4, ""),
    (
        "a write in a line",
        "auction",
        AUCTION,
        (7, 0, 2),
        4,
        "1 1.1.1",
    ),
    ("the last line", "auction", "ad;", (4_096, 0, 1), 4, ""),
    (
        "a read of a script",
        "script",
        CALLS,
        (21, 2, 0),
        3,
        "made 1;read fault;",
    ),
    (
        "the read of its end",
        "script",
        CALLS,
        (4_096, 2, 0),
        3,
        "made 1;made 1;read fault;",
    ),
    (
        "a bad line of a script, and then a failing read",
        "script",
        "100 x;",
        (4_096, 2, 0),
        8,
        "bad line 1;",
    ),
    ("a write of a script", "script", CALLS, (4_096, 0, 1), 4, ""),
    (
        "the last line of a script",
        "script",
        "100 x;",
        (4_096, 0, 1),
        4,
        "",
    ),
    (
        "the last line behind an answer",
        "script",
        "100 account secret01;100 x;",
        (4_096, 0, 2),
        4,
        "made 1;",
    ),
    (
        "the summary of a drill",
        "drill 7 1",
        "",
        (4_096, 0, 1),
        4,
        "",
    ),
    (
        "a drill reads nothing",
        "drill 7 0",
        AUCTION,
        (4_096, 1, 0),
        0,
        "entries 0 faulted 0 searches 0 placements 0 settled 0 cents 0;",
    ),
    (
        "a read of a session",
        "run --host-key hostkey1",
        ACCOUNT,
        (50, 2, 0),
        3,
        "",
    ),
    (
        "a write of a session",
        "run --host-key hostkey1",
        ACCOUNT,
        (4_096, 0, 1),
        4,
        "",
    ),
    (
        "no message",
        "run --host-key hostkey1",
        ";;",
        (4_096, 0, 0),
        0,
        "",
    ),
    (
        "a message that cannot be served",
        "run --host-key hostkey1",
        "script;;",
        (4_096, 0, 0),
        8,
        NOT_BUILT,
    ),
];

#[test]
fn a_fault_ends_a_call_behind_what_was_read(rt: HostRuntime) -> Result<(), Fail> {
    check_each(&rt, &FAULTS)
}
