//! Where bytes go.

ghost use Rattle.std.specs.Prelude.{◌≡◌, ◌<◌, ◌≤◌, length};
ghost use Rattle.desk_io.specs.Writing.{Writes, WritesWithin, WriteCause};

/// What a write answers.
#[derive(Clone, Copy, Debug, PartialEq, Eq)]
pub enum Put {
    /// The first so many bytes were taken, at least one.
    Took(u64),
    /// The write failed and took nothing; the count of faults rose.
    Failed,
}

/// A sink of bytes, which may tell what was written and how many bytes it took, and counts its faults.
pub trait Sink {
    ghost use Rattle.std.specs.Prelude.{◌<◌, ◌^◌, IfSome};
    ghost use Rattle.desk_io.specs.SinkView.{SinkView};
    ghost use Rattle.desk_io.specs.SourceView.{SourceView};

    ghost sink: { Self → SinkView };

    // the source that it is too, where it is a link; else nothing is told of it
    ghost source_side: { Self → SourceView };

    /// Appends the first of the bytes, which are not empty.
    ///
    /// `Failed` comes only where the count of faults rose, and appends nothing. What is left of a link stays.
    fn write(&mut self, bytes: &[u8]) -> Put
        requires { 0 < length bytes.now }
        ensures within { WritesWithin result (length bytes.now) }
        ensures bytes { Writes (sink self.old) (sink self.new) result bytes.now }
        ensures faults { (sink self.old).faults ≤ (sink self.new).faults }
        ensures cause { WriteCause (sink self.old).faults (sink self.new).faults result }
        ensures source_side { source_side self.new ≡ source_side self.old };

    // the number of bytes taken is one of 64 bits
    ghost taken_fits: { (s : Self) → IfSome (sink s).taken (λ n. n < 2 ^ 64) };
}
