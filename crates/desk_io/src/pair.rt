//! A link of a source and a sink.

ghost use Rattle.std.specs.Prelude.{◌≡◌, ◌<◌, ◌≤◌, length};

use crate::{Got, Link, Put, Sink, Source};

/// A link over a source and a sink that stand apart: it reads from the one and writes to the other.
///
/// Both its sides show the two borrows, so that a caller knows what became of the ends that it lent.
#[derive(Drop)]
pub struct Pair<'a, S: Source, T: Sink> {
    pub source: &'a mut S,
    pub sink: &'a mut T,
}

impl<'a, S: Source, T: Sink> Pair<'a, S, T> {
    /// A link over these two.
    pub fn new(source: &'a mut S, sink: &'a mut T) -> Pair<'a, S, T>
        ensures source { result.source.now ≡ source.old }
        ensures sink { result.sink.now ≡ sink.old }
        ensures same_source { result.source.ghost_name ≡ source.entry.ghost_name }
        ensures same_sink { result.sink.ghost_name ≡ sink.entry.ghost_name }
    {
        Pair { source, sink }
    }
}

impl<S: Source, T: Sink> Source for Pair<'_, S, T> {
    ghost use Rattle.desk_io.specs.Pairing.{lenders_of};

    ghost source = { λ p. record (S.source p.source.now) { lenders = lenders_of p } };

    ghost sink_side = { λ p. record (T.sink p.sink.now) { lenders = lenders_of p } };

    /// Reads from the source alone.
    fn read(&mut self, room: &mut [u8]) -> Got {
        self.source.read(room)
    }
}

impl<S: Source, T: Sink> Sink for Pair<'_, S, T> {
    ghost use Rattle.desk_io.specs.Pairing.{lenders_of};

    ghost sink = { λ p. record (T.sink p.sink.now) { lenders = lenders_of p } };

    ghost source_side = { λ p. record (S.source p.source.now) { lenders = lenders_of p } };

    ghost taken_fits = { λ p. T.taken_fits p.sink.now };

    /// Writes to the sink alone.
    fn write(&mut self, bytes: &[u8]) -> Put {
        self.sink.write(bytes)
    }
}

impl<S: Source, T: Sink> Link for Pair<'_, S, T> {
    ghost use Rattle.std.specs.Prelude.{refl};

    ghost sink_side_is = { λ _. refl };

    ghost source_side_is = { λ _. refl };

    ghost lenders_are = { λ _. refl };
}
