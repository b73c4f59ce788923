//! The clock of the real world, of which nothing is told: the trusted edge.

use crate::Clock;
use std::time::{Clock as HostClock, SystemTime, UNIX_EPOCH};

/// The system's clock. It tells no moment before it is asked.
#[derive(Drop)]
pub struct WallClock<C: HostClock> {
    host: C,
}

impl<C: HostClock> WallClock<C> {
    /// The system's clock, as the program was handed it.
    pub fn new(host: C) -> WallClock<C> {
        WallClock { host }
    }
}

impl<C: HostClock> Clock for WallClock<C> {
    ghost use Rattle.std.specs.Prelude.{None};

    ghost moments = { λ _. None };

    /// The whole seconds since 1970, or 0 where the clock cannot be read.
    fn now(&mut self) -> u64 {
        seconds_since_1970(&self.host).unwrap_or(0)
    }
}

fn seconds_since_1970<C: HostClock>(host: &C) -> Option<u64> {
    let time = SystemTime::now(host).ok()?;
    Some(time.duration_since(UNIX_EPOCH).ok()?.as_secs())
}
