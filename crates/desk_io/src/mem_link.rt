//! A link in memory, for tests.

ghost use Rattle.std.specs.Prelude.{◌≡◌, ◌<◌, ◌≤◌, length};
ghost use Rattle.desk_io.specs.Reading.{Reads, ReadsWithin, ReadCause};
ghost use Rattle.desk_io.specs.SinkInMemory.{view_of_sink, write_answer, after_write};
ghost use Rattle.desk_io.specs.SourceInMemory.{read_answer, after_read};
ghost use Rattle.desk_io.specs.Writing.{Writes, WritesWithin, WriteCause};

use crate::{Got, Link, MemSink, MemSource, Put, Sink, Source};
use std::marker::Model;

/// A link of a source and a sink in memory, which tells both.
#[derive(Drop)]
pub struct MemLink {
    source: MemSource,
    sink: MemSink,
}

impl Model for MemLink {
    ghost use Rattle.desk_io.specs.LinkInMemory.{LinkValue};

    ghost Value = { LinkValue };

    ghost view = { λ l. record { source = l.source; sink = l.sink } };
}

impl MemLink {
    /// A link of these two.
    pub fn new(source: MemSource, sink: MemSink) -> MemLink
        ensures { result ≡ record { source = source; sink = sink } }
    {
        MemLink { source, sink }
    }

    /// What was written.
    pub fn bytes(&self) -> &[u8]
        ensures { result.now ≡ self.now.sink.written }
    {
        self.sink.bytes()
    }
}

impl Source for MemLink {
    ghost use Rattle.desk_io.specs.SinkInMemory.{view_of_sink};
    ghost use Rattle.desk_io.specs.SourceInMemory.{view_of_source};

    ghost source = { λ l. view_of_source l.source };

    ghost sink_side = { λ l. view_of_sink l.sink };

    /// Reads from the source alone.
    fn read(&mut self, room: &mut [u8]) -> Got
        requires { 0 < length room.old }
        ensures within { ReadsWithin result (length room.old) }
        ensures bytes { Reads (Some self.old.source.left) (Some self.new.source.left) result room.new }
        ensures faults { self.old.source.faults ≤ self.new.source.faults }
        ensures cause { ReadCause self.old.source.faults self.new.source.faults result }
        ensures sink_side { view_of_sink self.new.sink ≡ view_of_sink self.old.sink }
        ensures answer { result ≡ read_answer self.old.source (length room.old) }
        ensures after { self.new ≡ record self.old { source = after_read self.old.source result } }
    {
        self.source.read(room)
    }
}

impl Sink for MemLink {
    ghost use Rattle.desk_io.specs.SinkInMemory.{view_of_sink};
    ghost use Rattle.desk_io.specs.SourceInMemory.{view_of_source};
    ghost use Rattle.std.proofs.Common.{arith};

    ghost sink = { λ l. view_of_sink l.sink };

    ghost source_side = { λ l. view_of_source l.source };

    ghost taken_fits = { λ l. Prim.omega arith };

    /// Writes to the sink alone.
    fn write(&mut self, bytes: &[u8]) -> Put
        requires { 0 < length bytes.now }
        ensures within { WritesWithin result (length bytes.now) }
        ensures bytes { Writes (view_of_sink self.old.sink) (view_of_sink self.new.sink) result bytes.now }
        ensures faults { self.old.sink.faults ≤ self.new.sink.faults }
        ensures cause { WriteCause self.old.sink.faults self.new.sink.faults result }
        ensures source_side { view_of_source self.new.source ≡ view_of_source self.old.source }
        ensures answer { result ≡ write_answer self.old.sink (length bytes.now) }
        ensures after { self.new ≡ record self.old { sink = after_write self.old.sink bytes.now result } }
    {
        self.sink.write(bytes)
    }
}

impl Link for MemLink {
    ghost use Rattle.std.specs.Prelude.{refl};

    ghost sink_side_is = { λ _. refl };

    ghost source_side_is = { λ _. refl };

    ghost lenders_are = { λ _. refl };
}
