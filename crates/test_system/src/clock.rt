//! The system's clock.
//! No case can say it: the clock of a case is told what it shows, and can always be read.
use crate::checked::check;
use call_log::written;
use outside::Clock;
use real_outside::RealClock;
use std::io;
use std::io::ErrorKind;
use std::time::{Clock as SystemClock, Duration};

/// A clock that shows so many microseconds since 1970, or that can't be read.
#[derive(Drop)]
struct Shows(Option<u64>);

impl SystemClock for Shows {
    fn monotonic(&self) -> io::Result<Duration> {
        self.since_1970()
    }

    fn since_1970(&self) -> io::Result<Duration> {
        match self.0 {
            Some(micros) => Ok(Duration::from_micros(micros)),
            None => Err(io::Error::from(ErrorKind::Unsupported)),
        }
    }
}

/// What the clock of a system answers.
fn shown<R: SystemClock + Drop>(system: R) -> u64 {
    RealClock::new(system).now()
}

/// A moment that is over, and the end of the year 9999, in milliseconds since 1970.
const YEARS: (u64, u64) = (1_700_000_000_000, 253_402_300_800_000);

#[test]
fn tells_whole_milliseconds(rt: HostRuntime) {
    let fixed = shown(Shows(Some(1_700_000_000_500_999)));
    let stopped = shown(Shows(None));
    let real = shown(rt);
    let in_time = real == real.max(YEARS.0).min(YEARS.1);
    check(
        &rt,
        written(format_args!("{fixed} {stopped} {in_time}")),
        "1700000000500 18446744073709551615 true",
    );
}
