//! Sessions that are served by a desk.

ghost use Rattle.std.specs.Prelude.{◌≤◌};

use desk_core::{Desk, Solo};
use desk_io::{MemClock, MemLink, MemSink, MemSource};
use desk_keeper::KeeperMem;
use desk_types::{Settings, Tables};
use http_api::{Session, SessionEnd, session};
use query_words::{NoMemory, Text};
use std::alloc::{AllocError, Global};

/// How a session goes: the size of the pieces, the read and the write that fail, counted from 1, or 0, and the entries
/// that the journal has room for.
#[derive(Clone, Copy)]
pub struct Way {
    pub cut: u64,
    pub failing_read: u64,
    pub failing_write: u64,
    pub journal: u64,
}

/// In one piece, with no fault and the usual journal.
pub const PLAIN: Way = Way {
    cut: 1_000_000,
    failing_read: 0,
    failing_write: 0,
    journal: 1_000_000,
};

/// What a session wrote, and what became of it.
#[derive(Drop)]
pub struct Wrote {
    pub written: Vec<u8>,
    pub session: Session,
}

/// The bytes of a text, in which `~` stands for a line end.
pub fn bytes_of(alloc: Global, text: &str) -> Result<Vec<u8>, NoMemory> {
    let mut bytes = Vec::new(alloc);
    for byte in text.as_bytes() {
        match byte {
            b'~' => bytes.extend_from_slice(b"\r\n")?,
            _ => bytes.push(*byte)?,
        }
    }
    Ok(bytes)
}

/// Serves these bytes by an empty desk, whose host's key is `hostkey1`, always at the moment 100.
pub fn ran(alloc: Global, bytes: Vec<u8>, way: Way) -> Result<Wrote, NoMemory> {
    let key = Text::new(alloc, "hostkey1")?;
    let clock = MemClock::new(vec![in alloc; 100]?);
    let settings = Settings::new(5, 0, 4, way.journal, 1_000_000_000, 1_000_000).ok_or(AllocError)?;
    let source = MemSource::new(bytes, way.cut.max(1), failing(alloc, way.failing_read)?);
    let sink = MemSink::new(
        alloc,
        2_000_000,
        1_000_000,
        failing(alloc, way.failing_write)?,
    )?;
    let (link, session) = served(alloc, settings, MemLink::new(source, sink), clock, &key);
    Ok(Wrote {
        written: link.bytes().to_vec(alloc)?,
        session,
    })
}

/// The number of a call that is to fail, if one is.
fn failing(alloc: Global, number: u64) -> Result<Vec<u64>, NoMemory> {
    let mut numbers = Vec::new(alloc);
    if number > 0 {
        numbers.push(number)?;
    }
    Ok(numbers)
}

/// Serves a link by an empty desk.
fn served(
    alloc: Global,
    settings: Settings,
    mut link: MemLink,
    mut clock: MemClock,
    key: &Text,
) -> (MemLink, Session) {
    let keeper = KeeperMem::new(alloc, Tables::new(alloc), Vec::new(alloc));
    match Desk::open(alloc, keeper, settings) {
        Ok(desk) => {
            let mut service = Solo::new(desk, 1);
            let session = session(alloc, &mut service, &mut link, &mut clock, key);
            (link, session)
        }
        Err(_) => {
            let session = Session {
                end: SessionEnd::NoMemory,
                messages: 0,
            };
            (link, session)
        }
    }
}
