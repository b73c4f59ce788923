//! The days of moments.

ghost use Rattle.std.specs.Prelude.{◌≡◌};
ghost use Rattle.desk_types.specs.Day.{day_of as the_day_of};

use crate::limits::DAY_SECONDS;

/// The day of a moment: its seconds divided by 86,400, rounded down.
pub fn day_of(moment: u64) -> u64
    ensures { result ≡ the_day_of moment }
{
    moment / DAY_SECONDS
}
