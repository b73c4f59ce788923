//! The limits of a worker.

ghost use Rattle.std.specs.Prelude.{◌≡◌};

/// The most sessions that a worker is asked for.
pub const SESSIONS_MAX: u64 = 1_000_000;

/// A law, with nothing to run: the limits of a worker are these numbers.
pub fn work_limits_are_these()
    ensures sessions { SESSIONS_MAX ≡ 1000000 }
{}
