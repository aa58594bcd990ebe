//! Counts of faults.
ghost use Rattle.std.specs.Prelude.{◌≡◌, MatchResult, IsErr};
ghost use Rattle.capture.specs.Faults.{CountsFaults};

use folder_disk::counted;
use outside::Failed;
use std::fmt::Display;
use std::io;
use system_network::Causes;

/// Passes an answer of the system on. The cause of a failure is told, and the failure is counted.
pub(crate) fn told<T, C: Causes, D: Display + Drop>(
    faults: &mut u64,
    causes: &mut C,
    what: D,
    call: &str,
    answer: io::Result<T>,
) -> Result<T, Failed>
    ensures passed_on { MatchResult answer (λ value. result ≡ Ok value) (λ _. IsErr result) }
    ensures counts { CountsFaults faults.old faults.new result }
{
    if let Err(error) = &answer {
        causes.tell(what, call, error);
    }
    counted(faults, answer)
}
