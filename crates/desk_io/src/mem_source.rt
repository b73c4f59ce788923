//! A source in memory, for tests: it cuts its bytes into pieces, and fails where it is told to.

ghost use Rattle.std.specs.Prelude.{◌≡◌, ◌<◌, ◌≤◌, length, min, take};
ghost use Rattle.desk_io.specs.Reading.{Reads, ReadsWithin, ReadCause};
ghost use Rattle.desk_io.specs.SourceInMemory.{read_answer, after_read};

use crate::{Got, Source};
use std::marker::Model;

/// A source over bytes in memory, which tells what is left.
///
/// A read gives at most `cut` bytes. The reads whose numbers, from 1, stand in `fails` fail.
#[derive(Drop)]
pub struct MemSource {
    bytes: Vec<u8>,
    taken: usize,
    reads: u64,
    cut: u64,
    fails: Vec<u64>,
    faults: u64,
}

impl Model for MemSource {
    ghost use Rattle.std.specs.Prelude.{◌≤◌, drop, vec_len};
    ghost use Rattle.desk_io.specs.SourceInMemory.{SourceValue};

    ghost Value = { SourceValue };

    ghost view = { λ s. record {
      left = drop s.taken s.bytes.items;
      reads = s.reads;
      cut = s.cut;
      fails = s.fails.items;
      faults = s.faults;
    } };

    ghost invariant = { λ s. (s.taken ≤ vec_len s.bytes) × (1 ≤ s.cut) };
}

impl MemSource {
    /// A source of these bytes, of which a read gives at most `cut`, at least 1; the reads numbered in `fails`, from 1, fail.
    pub fn new(bytes: Vec<u8>, cut: u64, fails: Vec<u64>) -> MemSource
        requires { 1 ≤ cut }
        ensures { result ≡ record { left = bytes.items; reads = 0; cut = cut; fails = fails.items; faults = 0 } }
    {
        MemSource {
            bytes,
            taken: 0,
            reads: 0,
            cut,
            fails,
            faults: 0,
        }
    }
}

impl Source for MemSource {
    ghost use Rattle.desk_io.specs.SinkView.{no_sink};
    ghost use Rattle.desk_io.specs.SourceInMemory.{view_of_source};

    ghost source = { λ s. view_of_source s };

    ghost sink_side = { λ _. no_sink };

    /// Gives the next bytes, at most `cut`, or fails where this read's number says so.
    fn read(&mut self, room: &mut [u8]) -> Got
        requires { 0 < length room.old }
        ensures within { ReadsWithin result (length room.old) }
        ensures bytes { Reads (Some self.old.left) (Some self.new.left) result room.new }
        ensures faults { self.old.faults ≤ self.new.faults }
        ensures cause { ReadCause self.old.faults self.new.faults result }
        ensures answer { result ≡ read_answer self.old (length room.old) }
        ensures after { self.new ≡ after_read self.old result }
    {
        self.reads = self.reads.saturating_add(1);
        if self.fails.contains(&self.reads) {
            self.faults = self.faults.saturating_add(1);
            return Got::Failed;
        }
        let left = self.bytes.as_slice().split_at(self.taken).1;
        if left.is_empty() {
            return Got::End;
        }
        let count = copy_front(left, room, self.cut);
        self.taken += count;
        Got::Bytes(count as u64)
    }
}

// Copies the first bytes into the room, as many as fit and at most `cut`, and says how many.
fn copy_front(bytes: &[u8], room: &mut [u8], cut: u64) -> usize
    ensures count { result ≡ min (min cut (length room.old)) (length bytes.now) }
    ensures copied { take result room.new ≡ take result bytes.now }
{
    let count = cut.min(room.len() as u64).min(bytes.len() as u64) as usize;
    let front = bytes.split_at(count).0;
    room[..count].copy_from_slice(front);
    count
}
