//! Both ways at once.

use crate::{Sink, Source};

/// A source and a sink in one: a read leaves what was written, and a write leaves what is left.
pub trait Link: Source + Sink {
    ghost use Rattle.std.specs.Prelude.{◌≡◌};

    // what reads leave as it was is this sink, and what writes leave is this source
    ghost sink_side_is: { (l : Self) → Self.sink_side l ≡ Self.sink l };

    ghost source_side_is: { (l : Self) → Self.source_side l ≡ Self.source l };

    // both ways go through the same borrows
    ghost lenders_are: { (l : Self) → (Self.source l).lenders ≡ (Self.sink l).lenders };
}
