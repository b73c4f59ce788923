//! The ranges of the numbers that stand among the words.

ghost use Rattle.std.specs.Prelude.{◌≡◌};

/// The greatest number that a drill may start from; the least is zero.
pub const DRILL_START_MAX: u64 = 2_147_483_647;

/// The greatest size of a drill; the least is zero.
pub const DRILL_SIZE_MAX: u64 = 1_000;

/// The greatest number of a port; the least is one.
pub const PORT_MAX: u64 = 65_535;

/// The most workers; the fewest are one.
pub const WORKERS_MAX: u64 = 8;

/// The most sessions that a worker serves; the fewest are one.
pub const SESSIONS_MAX: u64 = 1_000_000;

/// The sessions that a worker serves where the words name no number.
pub const SESSIONS_USUAL: u64 = 1_000;

/// A law, with nothing to run: the limits are these numbers.
pub fn word_limits_are_these()
    ensures drills { (DRILL_START_MAX ≡ 2147483647) × (DRILL_SIZE_MAX ≡ 1000) }
    ensures ports { PORT_MAX ≡ 65535 }
    ensures workers { WORKERS_MAX ≡ 8 }
    ensures sessions { (SESSIONS_MAX ≡ 1000000) × (SESSIONS_USUAL ≡ 1000) }
{}
