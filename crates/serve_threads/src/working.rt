//! The work of one worker.

ghost use Rattle.std.specs.Prelude.{◌≡◌, ℕ, ◌+◌, ◌*◌, ◌<◌, ◌≤◌};
ghost use Rattle.http_api.specs.declared.limits.TheConstants.{MESSAGES_MAX as most_messages};
ghost use Rattle.serve_threads.specs.Visits.{link_sides};
ghost use Rattle.serve_threads.specs.WorkerView.{IsUnused, parts_seen, worker_view};
ghost use Rattle.serve_threads.specs.Working.{HasWorked, StopsSo};
ghost use Rattle.serve_threads.specs.Underway.{HoldsSession, IsUnderway};
ghost use Rattle.serve_threads.specs.declared.limits.TheConstants.{SESSIONS_MAX as most};

use crate::worker::{Worker, WorkerEnd};
use desk_doors::{Came, Door};
use desk_io::Clock;
use desk_types::Service;
use http_api::session;
use query_words::Text;
use std::alloc::Global;

/// Takes links from the worker's door, one after another: runs a session on each, and gives it back.
///
/// It takes up to so many links, 1 to 1,000,000, and may wait for them where the door or the service does. What it did
/// is told by the worker:
///
/// | End | Comes |
/// |---|---|
/// | `Closed` | the door is shut: no link waited, and none will |
/// | `Enough` | exactly after the number of sessions that was asked for |
/// | `DoorFailed` | an accept failed, and the door's count of faults rose |
pub fn work<V: Service, D: Door, C: Clock>(
    alloc: Global,
    worker: &mut Worker<V, D, C>,
    host_key: &Text,
    sessions: u64,
)
    requires unused { IsUnused worker.old }
    requires some { 1 ≤ sessions }
    requires limit { sessions ≤ most }
    ensures worked { let seen = parts_seen V.home V.service D.door C.moments in
        let sides = link_sides D.L.source D.L.sink in
        HasWorked sides host_key.now sessions (worker_view seen worker.old) (worker_view seen worker.new) }
{
    worker.end = take_links(alloc, worker, host_key, sessions);
    worker.service.history_is_legal();
}

/// Takes links until the door ends it or there were enough, and answers how it ended.
fn take_links<V: Service, D: Door, C: Clock>(
    alloc: Global,
    worker: &mut Worker<V, D, C>,
    host_key: &Text,
    sessions: u64,
) -> WorkerEnd
    requires unused { IsUnused worker.old }
    requires limit { sessions ≤ most }
    ensures underway { let seen = parts_seen V.home V.service D.door C.moments in
        let sides = link_sides D.L.source D.L.sink in
        IsUnderway sides host_key.now (worker_view seen worker.old) (worker_view seen worker.new) }
    ensures stopped { StopsSo result sessions worker.new.sessions (D.door worker.old.door) (D.door worker.new.door) }
{
    for _ in 0..sessions {
        match worker.door.accept() {
            Came::Linked(link) => serve_link(alloc, worker, host_key, link),
            Came::Closed => return WorkerEnd::Closed,
            Came::Failed => return WorkerEnd::DoorFailed,
        }
    }
    WorkerEnd::Enough
}

/// Runs a session on a link that was accepted, counts it, and gives the link back.
fn serve_link<V: Service, D: Door, C: Clock>(
    alloc: Global,
    worker: &mut Worker<V, D, C>,
    host_key: &Text,
    mut link: D::L,
)
    requires out { 1 ≤ (D.door worker.old.door).out }
    requires few { worker.old.sessions < most }
    requires messages { worker.old.messages ≤ most_messages * worker.old.sessions }
    ensures held { let seen = parts_seen V.home V.service D.door C.moments in
        let sides = link_sides D.L.source D.L.sink in
        HoldsSession sides host_key.now (worker_view seen worker.old) link (worker_view seen worker.new) }
{
    let held = session(
        alloc,
        &mut worker.service,
        &mut link,
        &mut worker.clock,
        host_key,
    );
    worker.sessions += 1;
    worker.messages += held.messages;
    worker.door.give_back(link);
}
