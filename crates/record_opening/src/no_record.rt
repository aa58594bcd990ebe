//! Why no record is told.
ghost use Rattle.std.specs.Prelude.{◌≡◌};

use crate::stop::Stop;
use capture::Memory;
use thiserror::Error;

/// Why no record is told, where one may begin.
#[derive(Clone, Copy, Debug, Error)]
pub enum NoRecord {
    /// Nothing is there: the volume ends.
    #[error("the volume ends")]
    End,
    /// An unfinished tail is there, as a stop leaves it.
    #[error("an unfinished tail")]
    Unfinished,
    /// The commit byte and more are there, but not what is due.
    #[error("not the record that is due")]
    Damaged,
    /// The bytes don't decide. What is due has at least so many bytes, more than there are.
    #[error("at least {0} bytes are due")]
    Need(u64),
    /// There was no memory.
    #[error("no memory")]
    Memory,
}

impl NoRecord {
    ghost use Rattle.std.specs.Prelude.{◌+◌, ◌<◌, ◌^◌};
    ghost use Rattle.record_opening.specs.Stops.{no_record_by};

    /// What a stop comes to, where so many bytes have come, which begin with the commit byte and more, and where the file
    /// goes on behind them or doesn't.
    pub fn by(stop: Stop, more: bool, len: u64) -> NoRecord
        requires { len + 1 < 2 ^ 64 }
        ensures { result ≡ no_record_by stop more len }
    {
        match stop {
            Stop::Open => {
                if more {
                    NoRecord::Need(len + 1)
                } else {
                    NoRecord::Damaged
                }
            }
            Stop::Until(n) => {
                if more {
                    NoRecord::Need(n)
                } else {
                    NoRecord::Damaged
                }
            }
            Stop::Wrong => NoRecord::Damaged,
            Stop::Memory => NoRecord::Memory,
        }
    }
}

impl From<Memory> for NoRecord {
    ghost use Rattle.record_opening.specs.declared.no_record.NoRecord.TheVariants.{Memory as OutOfMemory};

    ghost from_gives = { λ _ why. why ≡ OutOfMemory };

    fn from(_error: Memory) -> NoRecord {
        NoRecord::Memory
    }
}
