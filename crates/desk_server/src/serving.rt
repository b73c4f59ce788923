//! The service of a desk.

ghost use Rattle.std.specs.Prelude.{◌≡◌, ◌≤◌, [], map, IfErr, IfOk, OnErr, vec_len};
ghost use Rattle.desk_core.specs.DeskValue.{IsRunOfLedger, name_of};
ghost use Rattle.serve_threads.specs.Visits.{link_sides};
ghost use Rattle.serve_threads.specs.declared.limits.TheConstants.{SESSIONS_MAX as most_sessions};
ghost use Rattle.desk_server.specs.Parts.{Orders, Posts};
ghost use Rattle.desk_server.specs.Serving.{IsServed};
ghost use Rattle.desk_server.specs.declared.serving.TheConstants.{WORKERS_MAX as most_workers};

use crate::dismissing::dismiss;
use crate::engaging::engage;
use crate::served::ServedDesk;
use desk_core::Desk;
use desk_doors::Door;
use desk_hall::Hall;
use desk_io::Clock;
use desk_keeper::Keeper;
use query_words::Text;
use serve_threads::serve;
use std::alloc::Global;
use std::sync::Wait;
use std::thread::Threads;

/// The most workers that serve one desk.
pub const WORKERS_MAX: u64 = 8;

/// Serves a desk without entries by a worker at each of 1 to 8 doors, all at once. Worker 1 is at the first door, with the
/// first clock, and makes its calls as caller 1, and so on. Each holds up to so many sessions, 1 to 1,000,000.
///
/// It waits for links, and gives the doors back in their order. The desk is then the ledger's run of one journal, of which
/// each worker has seen a beginning that has all its own calls. For want of memory, before any door is asked, the desk
/// comes back as it was.
pub fn serve_desk<
    R: Threads + Wait + Sync,
    D: Door + Send,
    K: Keeper + Send,
    C: Clock + Send + Drop,
>(
    rt: &R,
    alloc: Global,
    desk: Desk<K>,
    doors: &mut Vec<D>,
    clocks: Vec<C>,
    host_key: &Text,
    sessions: u64,
) -> Result<ServedDesk<K>, Desk<K>>
where
    D::L: Send,
    requires empty { desk.log ≡ [] }
    requires workers { (1 ≤ vec_len doors.old) × (vec_len doors.old ≤ most_workers) }
    requires clocks { vec_len clocks ≡ vec_len doors.old }
    requires sessions { (1 ≤ sessions) × (sessions ≤ most_sessions) }
    ensures name { IfOk result (λ served. name_of served.desk ≡ name_of desk) }
    ensures of_ledger { IfOk result (λ served. IsRunOfLedger served.desk) }
    ensures served { let posts : Posts D.L = record {
      doors = map D.door doors.old.items;
      doors_now = map D.door doors.new.items;
      moments = map C.moments clocks.items;
    } in
        let orders : Orders = record { host_key = host_key.now; sessions = sessions } in
        IfOk result (λ served. IsServed (link_sides D.L.source D.L.sink) orders served.desk posts served.totals) }
    ensures back { IfErr result (λ left. left ≡ desk) }
    ensures unasked { OnErr result (doors.new.items ≡ doors.old.items) }
{
    let mut clocks = clocks;
    let Ok(room) = Vec::with_capacity(alloc, doors.len()) else {
        return Err(desk);
    };
    let (hall, mut passes) = match Hall::new(alloc, desk, doors.len() as u64) {
        Ok(made) => made,
        Err(desk) => {
            room.destroy_empty();
            return Err(desk);
        }
    };
    let mut workers = room;
    engage(rt, &hall, &mut passes, doors, &mut clocks, &mut workers);
    serve(rt, alloc, &mut workers, host_key, sessions);
    let totals = dismiss(workers, &mut passes, doors);
    Ok(ServedDesk {
        desk: hall.close(passes),
        totals,
    })
}
