//! The ranges of the numbers of an auction.

ghost use Rattle.std.specs.Prelude.{◌≡◌};

/// The least bid and the least reserve, in cents per click.
pub const BID_MIN: u64 = 1;

/// The greatest bid and the greatest reserve, in cents per click.
pub const BID_MAX: u64 = 1_000_000;

/// The least quality of a line.
pub const QUALITY_MIN: u64 = 1;

/// The greatest quality of a line.
pub const QUALITY_MAX: u64 = 100;

/// The greatest floor: the least score that an ad must have, in cents times quality.
pub const FLOOR_MAX: u64 = 100_000_000;

/// The most places of a page; the least number is one.
pub const PLACES_MAX: u64 = 8;

/// A law: the limits are these numbers.
pub fn limits_are_these()
    ensures bids { (BID_MIN ≡ 1) × (BID_MAX ≡ 1000000) }
    ensures qualities { (QUALITY_MIN ≡ 1) × (QUALITY_MAX ≡ 100) }
    ensures floors { FLOOR_MAX ≡ 100000000 }
    ensures places { PLACES_MAX ≡ 8 }
{}
