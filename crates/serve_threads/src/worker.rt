//! A worker: a service with a door and a clock, and what became of its work.

ghost use Rattle.std.specs.Prelude.{◌≡◌};

/// How the work of a worker ended.
#[derive(Clone, Copy, Debug, PartialEq, Eq)]
pub enum WorkerEnd {
    /// It has not worked.
    Unused,
    /// Its door is shut: no link waited, and none will.
    Closed,
    /// It held as many sessions as it was asked for.
    Enough,
    /// An accept failed: the door's count of faults rose.
    DoorFailed,
}

/// A service with a door and a clock of its own, and what became of its work.
#[derive(Debug, Drop)]
pub struct Worker<V, D, C> {
    /// What answers the calls of its sessions.
    pub service: V,
    /// Where its links come from, and where they are given back.
    pub door: D,
    /// What gives the moments of its calls.
    pub clock: C,
    /// How its work ended.
    pub end: WorkerEnd,
    /// How many sessions it held.
    pub sessions: u64,
    /// How many answers its sessions wrote wholly, those of sessions that failed among them.
    pub messages: u64,
}

impl<V, D, C> Worker<V, D, C> {
    /// A worker that has not worked.
    pub fn new(service: V, door: D, clock: C) -> Worker<V, D, C>
        ensures { result ≡ record {
          service = service;
          door = door;
          clock = clock;
          end = WorkerEnd.Unused;
          sessions = 0;
          messages = 0;
        } }
    {
        Worker {
            service,
            door,
            clock,
            end: WorkerEnd::Unused,
            sessions: 0,
            messages: 0,
        }
    }
}

impl<V, D, C: Drop> Worker<V, D, C> {
    /// Its service and its door, how its work ended, and how many sessions it held and answers it wrote.
    pub fn parts(self) -> (V, D, WorkerEnd, u64, u64)
        ensures { result ≡ (self.service, self.door, self.end, self.sessions, self.messages) }
    {
        let Worker {
            service,
            door,
            clock: _,
            end,
            sessions,
            messages,
        } = self;
        (service, door, end, sessions, messages)
    }
}
