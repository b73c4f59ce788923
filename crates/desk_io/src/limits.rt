//! The limits of the lines of an input.

ghost use Rattle.std.specs.Prelude.{◌≡◌};

/// The most bytes of a line, without its line feed.
pub const LINE_BYTES_MAX: u64 = 4_096;

/// The most lines of an input, those that are passed over included.
pub const INPUT_LINES_MAX: u64 = 1_000_000;

/// A law, with nothing to run: the limits are these numbers.
pub fn line_limits_are_these()
    ensures bytes { LINE_BYTES_MAX ≡ 4096 }
    ensures lines { INPUT_LINES_MAX ≡ 1000000 }
{}
