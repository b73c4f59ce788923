//! The ranges of a drill's numbers.

ghost use Rattle.std.specs.Prelude.{◌≡◌};

/// The greatest start of a drill.
pub const START_MAX: u64 = 2_147_483_647;

/// The most accounts of a drill.
pub const SIZE_MAX: u64 = 1_000;

/// How many searches there are for each account.
pub const ACCOUNT_SEARCHES: u64 = 25;

/// No drill makes more calls.
pub const CALLS_MAX: u64 = 100_000;

/// The seconds from one call to the next.
pub const STEP_SECONDS: u64 = 60;

/// A law: the limits are these numbers.
pub fn drill_limits_are_these()
    ensures start { START_MAX ≡ 2147483647 }
    ensures size { SIZE_MAX ≡ 1000 }
{}
