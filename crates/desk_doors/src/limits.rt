//! The limits of links over the network.

ghost use Rattle.std.specs.Prelude.{◌≡◌};

/// The most seconds that a read of a link waits; a link that stays idle fails then.
pub const READ_SECONDS_MAX: u64 = 30;

/// The most seconds that a write of a link waits.
pub const WRITE_SECONDS_MAX: u64 = 30;

/// How many times an accept is tried where it was interrupted or the peer hung up before.
pub const ACCEPT_TRIES_MAX: u64 = 1_000;

/// A law, with nothing to run: the limits are these numbers.
pub fn door_limits_are_these()
    ensures read { READ_SECONDS_MAX ≡ 30 }
    ensures write { WRITE_SECONDS_MAX ≡ 30 }
    ensures tries { ACCEPT_TRIES_MAX ≡ 1000 }
{}
