//! A clock in memory, for tests.

ghost use Rattle.std.specs.Prelude.{◌≡◌};
ghost use Rattle.desk_io.specs.Moments.{moment_now, moments_left};

use crate::Clock;
use std::marker::Model;

/// A clock that answers given moments in their order, and then the last one again; it tells them.
#[derive(Drop)]
pub struct MemClock {
    moments: Vec<u64>,
    passed: usize,
}

impl Model for MemClock {
    ghost use Rattle.std.specs.Prelude.{ℕ, List, ◌≤◌, drop, vec_len};

    ghost Value = { List ℕ };

    ghost view = { λ c. drop c.passed c.moments.items };

    ghost invariant = { λ c. c.passed ≤ vec_len c.moments };
}

impl MemClock {
    /// A clock of these moments.
    pub fn new(moments: Vec<u64>) -> MemClock
        ensures { result ≡ moments.items }
    {
        MemClock { moments, passed: 0 }
    }
}

impl Clock for MemClock {
    ghost use Rattle.std.specs.Prelude.{Some};

    ghost moments = { λ c. Some c };

    /// The next moment, or the last one again; 0 where there is none.
    fn now(&mut self) -> u64
        ensures moment { result ≡ moment_now self.old }
        ensures left { self.new ≡ moments_left self.old }
    {
        match self.moments.as_slice().split_at(self.passed).1 {
            [] => 0,
            [last] => *last,
            [moment, ..] => {
                self.passed += 1;
                *moment
            }
        }
    }
}
