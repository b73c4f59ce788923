//! How workers are made.

ghost use Rattle.std.specs.Prelude.{◌≡◌, ◌≤◌, [], map, All, vec_len, vec_capacity};
ghost use Rattle.desk_hall.specs.Callers.{HasSeenLegal, caller_of};
ghost use Rattle.serve_threads.specs.WorkerView.{IsUnused};

use desk_doors::Door;
use desk_hall::{Caller, Hall, Held};
use desk_io::Clock;
use desk_keeper::Keeper;
use serve_threads::Worker;
use std::sync::Wait;
use turn_lock::Pass;

/// Makes a worker of each pass, with the door and the clock at the same place.
pub fn engage<'h, R: Wait, D: Door, K: Keeper, C: Clock>(
    rt: &'h R,
    hall: &'h Hall<K>,
    passes: &mut Vec<Pass<Held<K>>>,
    doors: &mut Vec<D>,
    clocks: &mut Vec<C>,
    workers: &mut Vec<Worker<Caller<'h, K, R>, D, C>>,
)
    requires of_hall { All (λ p. p.lock ≡ hall.now.id) passes.old.items }
    requires legal { All HasSeenLegal passes.old.items }
    requires doors { vec_len doors.old ≡ vec_len passes.old }
    requires clocks { vec_len clocks.old ≡ vec_len passes.old }
    requires none { workers.old.items ≡ [] }
    requires room { vec_len passes.old ≤ vec_capacity workers.old }
    ensures callers { map (λ w. w.service) workers.new.items ≡ map caller_of passes.old.items }
    ensures at_doors { map (λ w. w.door) workers.new.items ≡ doors.old.items }
    ensures by_clocks { map (λ w. w.clock) workers.new.items ≡ clocks.old.items }
    ensures unused { All IsUnused workers.new.items }
    ensures no_passes { passes.new.items ≡ [] }
    ensures no_doors { doors.new.items ≡ [] }
    ensures passes_room { vec_capacity passes.new ≡ vec_capacity passes.old }
    ensures doors_room { vec_capacity doors.new ≡ vec_capacity doors.old }
{
    while !passes.is_empty() {
        let caller = Caller::new(rt, hall, passes.remove(0));
        workers.push_reserved(Worker::new(caller, doors.remove(0), clocks.remove(0)));
    }
}
