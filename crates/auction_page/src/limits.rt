//! The limits of an auction's text; those of its lines are those of any input.

ghost use Rattle.std.specs.Prelude.{◌≡◌};

/// The most ads of an auction.
pub const ADS_MAX: u64 = 10_000;

/// The greatest number of an account, a campaign or a line in an auction.
pub const NUMBER_MAX: u64 = 1_000_000;

/// The greatest free budget of an ad, in cents.
pub const FREE_MAX: u64 = 1_000_000_000_000;

/// A law, with nothing to run: the limits are these numbers.
pub fn auction_limits_are_these()
    ensures ads { ADS_MAX ≡ 10000 }
    ensures numbers { NUMBER_MAX ≡ 1000000 }
    ensures free { FREE_MAX ≡ 1000000000000 }
{}
