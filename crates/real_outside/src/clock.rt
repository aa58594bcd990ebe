//! The system's clock.
ghost use Rattle.std.specs.Prelude.{◌≡◌, ◌-◌, ◌/◌, ◌^◌, false, [], min};
ghost use Rattle.std.specs.Time.{system_time_nanos};

use outside::Clock;
use std::time::{Clock as SystemClock, SystemTime, UNIX_EPOCH};

/// Answers the system's time. It doesn't tell its answers.
#[derive(Drop)]
pub struct RealClock<R> {
    system: R,
}

impl<R: SystemClock> RealClock<R> {
    /// The clock of this system.
    pub fn new(system: R) -> RealClock<R> {
        RealClock { system }
    }
}

impl<R: SystemClock> Clock for RealClock<R> {
    ghost tells = { false };

    ghost answers = { λ _. [] };

    /// Where the system's clock can't be read or stands before 1970, the greatest number.
    fn now(&mut self) -> u64 {
        match SystemTime::now(&self.system) {
            Ok(time) => millis_of(time),
            Err(_) => u64::MAX,
        }
    }
}

/// Whole milliseconds since 1970, or the greatest number where they are more.
fn millis_of(time: SystemTime) -> u64
    ensures { result ≡ min (system_time_nanos time / 1_000_000) (2 ^ 64 - 1) }
{
    match time.duration_since(UNIX_EPOCH) {
        Ok(since) => u64::try_from(since.as_millis()).unwrap_or(u64::MAX),
        Err(_) => u64::MAX,
    }
}
