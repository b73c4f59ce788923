//! A sink in memory, for tests: it takes bytes in pieces, and fails where it is told to or where it is full.

ghost use Rattle.std.specs.Prelude.{◌≡◌, ◌<◌, ◌≤◌, [], length, IfOk};
ghost use Rattle.desk_io.specs.SinkInMemory.{view_of_sink, write_answer, after_write};
ghost use Rattle.desk_io.specs.Writing.{Writes, WritesWithin, WriteCause};

use crate::{NoMemory, Put, Sink};
use std::alloc::Global;
use std::marker::Model;

/// A sink that keeps what is written in memory, and tells it.
///
/// A write takes at most `cut` bytes, and at most what is left of the room. The writes whose numbers, from 1, stand in `fails` fail, and so does one that finds the room full.
#[derive(Drop)]
pub struct MemSink {
    bytes: Vec<u8>,
    room: u64,
    writes: u64,
    cut: u64,
    fails: Vec<u64>,
    faults: u64,
}

impl Model for MemSink {
    ghost use Rattle.std.specs.Prelude.{◌≤◌, vec_len, vec_capacity};
    ghost use Rattle.desk_io.specs.SinkInMemory.{SinkValue};

    ghost Value = { SinkValue };

    ghost view = { λ s. record {
      written = s.bytes.items;
      room = s.room;
      writes = s.writes;
      cut = s.cut;
      fails = s.fails.items;
      faults = s.faults;
    } };

    ghost invariant = { λ s. (vec_len s.bytes ≤ s.room) × (s.room ≤ vec_capacity s.bytes) × (1 ≤ s.cut) };
}

impl MemSink {
    /// A sink with room for `room` bytes, whose memory is taken here. A write takes at most `cut` bytes, at least 1; the writes numbered in `fails`, from 1, fail.
    pub fn new(alloc: Global, room: u64, cut: u64, fails: Vec<u64>) -> Result<MemSink, NoMemory>
        requires { 1 ≤ cut }
        ensures { IfOk result (λ sink. sink ≡
            record { written = []; room = room; writes = 0; cut = cut; fails = fails.items; faults = 0 }) }
    {
        Ok(MemSink {
            bytes: Vec::with_capacity(alloc, room as usize)?,
            room,
            writes: 0,
            cut,
            fails,
            faults: 0,
        })
    }

    /// What was written.
    pub fn bytes(&self) -> &[u8]
        ensures { result.now ≡ self.now.written }
    {
        self.bytes.as_slice()
    }
}

impl Sink for MemSink {
    ghost use Rattle.desk_io.specs.SinkInMemory.{view_of_sink};
    ghost use Rattle.desk_io.specs.SourceView.{no_source};
    ghost use Rattle.std.proofs.Common.{arith};

    ghost sink = { λ s. view_of_sink s };

    ghost source_side = { λ _. no_source };

    ghost taken_fits = { λ s. Prim.omega arith };

    /// Takes the first bytes, at most `cut` and at most what is left of the room, or fails where this write's number says so or the room is full.
    fn write(&mut self, bytes: &[u8]) -> Put
        requires { 0 < length bytes.now }
        ensures within { WritesWithin result (length bytes.now) }
        ensures bytes { Writes (view_of_sink self.old) (view_of_sink self.new) result bytes.now }
        ensures faults { self.old.faults ≤ self.new.faults }
        ensures cause { WriteCause self.old.faults self.new.faults result }
        ensures answer { result ≡ write_answer self.old (length bytes.now) }
        ensures after { self.new ≡ after_write self.old bytes.now result }
    {
        self.writes = self.writes.saturating_add(1);
        let room = self.room - self.bytes.len() as u64;
        if self.fails.contains(&self.writes) || room == 0 {
            self.faults = self.faults.saturating_add(1);
            return Put::Failed;
        }
        let count = self.cut.min(bytes.len() as u64).min(room);
        match self.bytes.extend_from_slice(&bytes[..count as usize]) {
            Ok(()) => Put::Took(count),
            Err(_) => unreachable!(),
        }
    }
}
