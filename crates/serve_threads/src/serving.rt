//! Several workers at once.

ghost use Rattle.std.specs.Prelude.{◌≤◌, All};
ghost use Rattle.std.specs.List.{AllZip};
ghost use Rattle.serve_threads.specs.Visits.{link_sides};
ghost use Rattle.serve_threads.specs.WorkerView.{IsUnused, parts_seen, worker_view};
ghost use Rattle.serve_threads.specs.Working.{HasWorked};
ghost use Rattle.serve_threads.specs.declared.limits.TheConstants.{SESSIONS_MAX as most};

use crate::worker::Worker;
use crate::working::work;
use desk_doors::Door;
use desk_io::Clock;
use desk_types::Service;
use query_words::Text;
use std::alloc::Global;
use std::thread::{self, Threads};

/// Has each of the workers do its work, as `work` says, beside one another: each on a thread of its own where one can
/// be had. It waits for all of them. The list may be empty.
pub fn serve<R: Threads + Sync, V: Service + Send, D: Door + Send, C: Clock + Send>(
    rt: &R,
    alloc: Global,
    workers: &mut [Worker<V, D, C>],
    host_key: &Text,
    sessions: u64,
)
where
    V::Home: Send,
    D::L: Send,
    requires unused { All IsUnused workers.old }
    requires some { 1 ≤ sessions }
    requires limit { sessions ≤ most }
    ensures worked { let seen = parts_seen V.home V.service D.door C.moments in
        let sides = link_sides D.L.source D.L.sink in
        AllZip (λ worker now. HasWorked sides host_key.now sessions (worker_view seen worker) (worker_view seen now))
        workers.old workers.new }
{
    let threads = workers.len().max(1);
    let each = |_: usize, worker: &mut Worker<V, D, C>|
        requires { IsUnused worker.old × (1 ≤ sessions) × (sessions ≤ most) }
        ensures { let seen = parts_seen V.home V.service D.door C.moments in
            let sides = link_sides D.L.source D.L.sink in
            HasWorked sides host_key.entry.now sessions (worker_view seen worker.old) (worker_view seen worker.new) }
    { work(alloc, worker, host_key, sessions) };
    thread::for_each_mut(rt, workers, threads, &each);
}
