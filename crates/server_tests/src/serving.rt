//! A desk that two workers serve, and what is left.

ghost use Rattle.std.specs.Prelude.{◌≡◌, [], IfOk, IfSome, vec_len};

use desk_core::Desk;
use desk_doors::Door;
use desk_io::{MemClock, MemLink, MemSink, MemSource};
use desk_keeper::KeeperMem;
use desk_server::{ServedDesk, Totals, serve_desk};
use desk_types::{Settings, Summary, Tables};
use query_words::{NoMemory, Text};
use std::alloc::Global;
use std::sync::Wait;
use std::thread::Threads;

/// A search.
const ASKED: &[u8] = b"GET /search?q=shoes HTTP/1.1\r\nHost: h\r\n\r\n";

/// Its answer, where no line is bought.
pub const ANSWER: &[u8] =
    b"HTTP/1.1 200 OK\r\nContent-Type: application/json\r\nContent-Length: 11\r\n\r\n{\"page\":[]}";

/// The most bytes that a read of a link gives, so that the search comes in two reads.
const CUT: u64 = 30;

/// What is left of a service: what the workers did, how many entries the journal has, and its summary.
#[derive(Clone, Copy, Debug, PartialEq, Eq)]
pub struct Left {
    pub totals: Totals,
    pub entries: usize,
    pub summary: Summary,
}

/// A link on which a search comes in two reads.
pub fn link_of(alloc: Global) -> Result<MemLink, NoMemory> {
    let source = MemSource::new(ASKED.to_vec(alloc)?, CUT, Vec::new(alloc));
    Ok(MemLink::new(
        source,
        MemSink::new(alloc, 10_000, 10_000, Vec::new(alloc))?,
    ))
}

/// A desk without rows, with the usual settings. None for want of memory.
pub fn opened(alloc: Global) -> Option<Desk<KeeperMem>>
    ensures { IfSome result (λ desk. desk.log ≡ []) }
{
    let keeper = KeeperMem::new(alloc, Tables::new(alloc), Vec::new(alloc));
    Desk::open(alloc, keeper, Settings::usual()).ok()
}

/// A clock that stands at 100.
pub fn clock_of(alloc: Global) -> Result<MemClock, NoMemory> {
    Ok(MemClock::new(vec![in alloc; 100]?))
}

// Clocks for two workers.
fn clocks_of(alloc: Global) -> Result<Vec<MemClock>, NoMemory>
    ensures { IfOk result (λ clocks. vec_len clocks ≡ 2) }
{
    Ok(vec![in alloc; clock_of(alloc)?, clock_of(alloc)?]?)
}

// What is left of this desk.
fn left_of(served: ServedDesk<KeeperMem>) -> Left {
    Left {
        totals: served.totals,
        entries: served.desk.log().len(),
        summary: served.desk.summary(),
    }
}

/// Serves a new desk by workers at these two doors, each for up to ten sessions. None for want of memory.
pub fn served<R: Threads + Wait + Sync, D: Door + Send>(
    rt: &R,
    alloc: Global,
    doors: &mut Vec<D>,
) -> Option<Left>
where
    D::L: Send,
    requires { vec_len doors.old ≡ 2 }
{
    let key = Text::new(alloc, "hostkey1").ok()?;
    let clocks = clocks_of(alloc).ok()?;
    let desk = opened(alloc)?;
    let served = serve_desk(rt, alloc, desk, doors, clocks, &key, 10).ok()?;
    Some(left_of(served))
}
