//! What is left of workers.

ghost use Rattle.std.specs.Prelude.{◌≡◌, ◌<◌, ◌≤◌, ◌^◌, [], map, sum_by, vec_len, vec_capacity};
ghost use Rattle.desk_hall.specs.Callers.{caller_of};
ghost use Rattle.desk_server.specs.Parts.{totals_of};

use crate::served::Totals;
use desk_doors::Door;
use desk_hall::{Caller, Held};
use desk_io::Clock;
use desk_keeper::Keeper;
use serve_threads::{Worker, WorkerEnd};
use std::sync::Wait;
use turn_lock::Pass;

/// Takes the workers' passes and doors back, in their order, and adds up what they did.
pub fn dismiss<'h, R: Wait, D: Door, K: Keeper, C: Clock + Drop>(
    mut workers: Vec<Worker<Caller<'h, K, R>, D, C>>,
    passes: &mut Vec<Pass<Held<K>>>,
    doors: &mut Vec<D>,
) -> Totals
    requires no_passes { passes.old.items ≡ [] }
    requires no_doors { doors.old.items ≡ [] }
    requires passes_room { vec_len workers ≤ vec_capacity passes.old }
    requires doors_room { vec_len workers ≤ vec_capacity doors.old }
    requires sessions { sum_by (λ w. w.sessions) workers.items < 2 ^ 64 }
    requires messages { sum_by (λ w. w.messages) workers.items < 2 ^ 64 }
    ensures passes { map caller_of passes.new.items ≡ map (λ w. w.service) workers.entry.items }
    ensures doors { doors.new.items ≡ map (λ w. w.door) workers.entry.items }
    ensures totals { result ≡ totals_of workers.entry.items }
{
    let mut totals = Totals {
        sessions: 0,
        messages: 0,
        door_failed: false,
    };
    while !workers.is_empty() {
        let (caller, door, end, sessions, messages) = workers.remove(0).parts();
        passes.push_reserved(caller.finish());
        doors.push_reserved(door);
        totals.sessions += sessions;
        totals.messages += messages;
        totals.door_failed = totals.door_failed || end == WorkerEnd::DoorFailed;
    }
    workers.destroy_empty();
    totals
}
