//! Where bytes come from.

ghost use Rattle.std.specs.Prelude.{◌≡◌, ◌<◌, ◌≤◌, length};
ghost use Rattle.desk_io.specs.Reading.{Reads, ReadsWithin, ReadCause};

/// What a read answers.
#[derive(Clone, Copy, Debug, PartialEq, Eq)]
pub enum Got {
    /// So many bytes came, at least one.
    Bytes(u64),
    /// No byte is left.
    End,
    /// The read failed; the count of faults rose.
    Failed,
}

/// A source of bytes, which may tell what it has left and counts its faults.
pub trait Source {
    ghost use Rattle.desk_io.specs.SinkView.{SinkView};
    ghost use Rattle.desk_io.specs.SourceView.{SourceView};

    ghost source: { Self → SourceView };

    // the sink that it is too, where it is a link; else nothing is told of it
    ghost sink_side: { Self → SinkView };

    /// Moves the first bytes that are left into the room, which is not empty.
    ///
    /// `End` comes only where nothing is left, and `Failed` only where the count of faults rose; both take nothing. What was written to a link stays.
    fn read(&mut self, room: &mut [u8]) -> Got
        requires { 0 < length room.old }
        ensures within { ReadsWithin result (length room.old) }
        ensures bytes { Reads (source self.old).left (source self.new).left result room.new }
        ensures faults { (source self.old).faults ≤ (source self.new).faults }
        ensures cause { ReadCause (source self.old).faults (source self.new).faults result }
        ensures sink_side { sink_side self.new ≡ sink_side self.old };
}
