//! A sink that keeps no byte and counts them all.

ghost use Rattle.std.specs.Prelude.{◌≡◌, ◌+◌, ◌<◌, length};
ghost use Rattle.desk_io.specs.Counting.{capped, view_of_count};

use crate::{Put, Sink};
use std::marker::Model;

/// A sink that takes all bytes and counts them, seen as the count, which stays at `u64::MAX` once there. It never fails.
#[derive(Drop)]
pub struct CountSink {
    count: u64,
}

impl Model for CountSink {
    ghost use Rattle.std.specs.Prelude.{ℕ};

    ghost Value = { ℕ };

    ghost view = { λ s. s.count };
}

impl CountSink {
    /// A sink that took no byte.
    pub fn new() -> CountSink
        ensures { result ≡ 0 }
    {
        CountSink { count: 0 }
    }

    /// How many bytes it took.
    pub fn count(&self) -> u64
        ensures count { result ≡ self.now }
        ensures taken { (view_of_count self.now).taken ≡ Some result }
    {
        self.count
    }
}

impl Sink for CountSink {
    ghost use Rattle.desk_io.specs.Counting.{view_of_count};
    ghost use Rattle.desk_io.specs.SourceView.{no_source};
    ghost use Rattle.std.proofs.Common.{arith};

    ghost sink = { λ s. view_of_count s };

    ghost source_side = { λ _. no_source };

    ghost taken_fits = { λ s. Prim.omega arith };

    /// Takes all the bytes.
    fn write(&mut self, bytes: &[u8]) -> Put
        requires { 0 < length bytes.now }
        ensures all { result ≡ Put.Took (length bytes.now) }
        ensures count { self.new ≡ capped (self.old + length bytes.now) }
    {
        let given = bytes.len() as u64;
        self.count = self.count.saturating_add(given);
        Put::Took(given)
    }
}
