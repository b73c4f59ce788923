//! Workers at doors in memory, over a service that has no memory for a call.

ghost use Rattle.std.specs.Prelude.{◌≤◌, IfOk};
ghost use Rattle.serve_threads.specs.WorkerView.{IsUnused};
ghost use Rattle.serve_threads.specs.declared.limits.TheConstants.{SESSIONS_MAX as most};

use crate::WorkerEnd::{self, Closed, DoorFailed, Enough};
use crate::{Worker, serve, work};
use desk_doors::MemDoor;
use desk_io::{MemClock, MemLink, MemSink, MemSource};
use desk_types::{Call, Fault, Reply, Service};
use query_words::{NoMemory, Text};
use std::alloc::Global;
use std::process::Abort;
use std::test::Fail;

/// A service that has no memory for any call.
#[derive(Drop)]
struct Busy;

impl Service for Busy {
    ghost use Rattle.std.specs.Prelude.{[], true};
    ghost use Rattle.desk_types.specs.SettingsValue.{usual};
    ghost use Rattle.desk_types.specs.State.{empty};

    type Home = u64;

    ghost home = { λ s. 0 };

    ghost service = { λ s. record { me = 1; opening = empty usual; seen = []; sure = true } };

    fn history_is_legal(&self) {}

    fn call(&mut self, _moment: u64, _call: Call) -> Result<Reply, Fault> {
        Err(Fault::NoMemory)
    }
}

/// A link of two messages, of which the write of a number fails, if it is not 0.
fn link_of(alloc: Global, failing: u64) -> Result<MemLink, NoMemory> {
    let bytes = b"GET /x HTTP/1.1\r\nHost: h\r\n\r\nGET /x HTTP/1.1\r\nHost: h\r\n\r\n";
    let source = MemSource::new(bytes.to_vec(alloc)?, 100, Vec::new(alloc));
    let sink = MemSink::new(alloc, 1_000, 1_000, vec![in alloc; failing; 1]?)?;
    Ok(MemLink::new(source, sink))
}

/// A worker at a door of three links, the second of which fails at its second answer; the accept of a number fails.
fn worker_of(alloc: Global, failing: u64) -> Result<Worker<Busy, MemDoor, MemClock>, NoMemory>
    ensures unused { IfOk result IsUnused }
{
    let mut links = Vec::new(alloc);
    links.push(link_of(alloc, 0)?)?;
    links.push(link_of(alloc, 2)?)?;
    links.push(link_of(alloc, 0)?)?;
    let door = MemDoor::new(links, vec![in alloc; failing; 1]?);
    Ok(Worker::new(Busy, door, MemClock::new(Vec::new(alloc))))
}

/// What it shows, the accept that fails, the sessions asked for, the end, and the sessions and answers.
const ROWS: [(&str, u64, u64, WorkerEnd, u64, u64); 7] = [
    ("all links", 0, 1_000_000, Closed, 3, 5),
    ("the first accept fails", 1, 4, DoorFailed, 0, 0),
    ("the second accept fails", 2, 4, DoorFailed, 1, 2),
    ("the third accept fails", 3, 4, DoorFailed, 2, 3),
    ("one session", 0, 1, Enough, 1, 2),
    ("two sessions", 0, 2, Enough, 2, 3),
    ("as many sessions as links", 4, 3, Enough, 3, 5),
];

/// What a worker came to: how its work ended, its sessions and answers, and whether no further link was given back.
fn worked(
    alloc: Global,
    failing: u64,
    sessions: u64,
) -> Result<(WorkerEnd, u64, u64, bool), NoMemory>
    requires some { 1 ≤ sessions }
    requires limit { sessions ≤ most }
{
    let mut worker = worker_of(alloc, failing)?;
    let key = Text::new(alloc, "hostkey1")?;
    work(alloc, &mut worker, &key, sessions);
    let (_, door, end, sessions, messages) = worker.parts();
    let further = door.given(sessions.saturating_add(1));
    Ok((end, sessions, messages, further.is_none()))
}

#[test]
fn a_worker_works_up_to_its_end(rt: HostRuntime) -> Result<(), Fail> {
    for (shows, failing, limit, end, sessions, messages) in ROWS {
        let found = worked(rt.alloc(), failing, limit)?;
        assert_eq!(rt; found, (end, sessions, messages, true), "{shows}");
    }
    Ok(())
}

#[test]
fn workers_work_beside_one_another(rt: HostRuntime) -> Result<(), Fail> {
    let alloc = rt.alloc();
    let key = Text::new(alloc, "hostkey1")?;
    let mut workers = Vec::new(alloc);
    workers.push(worker_of(alloc, 0)?)?;
    workers.push(worker_of(alloc, 2)?)?;
    serve(&rt, alloc, workers.as_mut_slice(), &key, 10);
    let ends = [(Closed, 3, 5), (DoorFailed, 1, 2)];
    for (worker, end) in workers.iter().zip(ends) {
        assert_eq!(rt; (worker.end, worker.sessions, worker.messages), end);
    }
    Ok(())
}
