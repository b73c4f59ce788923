//! The limits of a session.

ghost use Rattle.std.specs.Prelude.{◌≡◌};

/// The most bytes of a head, the empty lines before it and its end among them.
pub const HEAD_BYTES_MAX: usize = 8_192;

/// The most fields of a head.
pub const FIELDS_MAX: usize = 64;

/// The most bytes of a body.
pub const BODY_BYTES_MAX: usize = 262_144;

/// The most messages that a session answers.
pub const MESSAGES_MAX: u64 = 10_000;

/// A law, with nothing to run: the limits of a session are these numbers.
pub fn session_limits_are_these()
    ensures head { HEAD_BYTES_MAX ≡ 8192 }
    ensures fields { FIELDS_MAX ≡ 64 }
    ensures body { BODY_BYTES_MAX ≡ 262144 }
    ensures messages { MESSAGES_MAX ≡ 10000 }
{}
