//! Causes of faults, for the one who started the program.
ghost use Rattle.std.specs.Prelude.{◌≡◌, IsErr, MatchResult};
ghost use Rattle.capture.specs.Faults.{CountsFaults};

use capture::Failed;
use std::fmt::Display;
use std::io;

/// Takes the cause of each fault that an object of the outside counts.
pub trait Causes {
    /// Tells a cause: what the call was about, as a file's path or a peer, the call in a word or two, and why it failed.
    /// Where it can't be told, nothing comes of it.
    fn tell<D: Display + Drop>(&mut self, what: D, call: &str, error: &io::Error);
}

/// Passes an answer of the system on. A failure is counted; the count stands still at its greatest value.
pub fn counted<T, E: Drop>(faults: &mut u64, answer: Result<T, E>) -> Result<T, Failed>
    ensures passed_on { MatchResult answer (λ value. result ≡ Ok value) (λ _. IsErr result) }
    ensures counts { CountsFaults faults.old faults.new result }
{
    match answer {
        Ok(value) => Ok(value),
        Err(_) => {
            *faults = faults.saturating_add(1);
            Err(Failed)
        }
    }
}

/// Passes an answer of the system on. The cause of a failure is told, and the failure is counted.
pub fn told<T, C: Causes, D: Display + Drop>(
    faults: &mut u64,
    causes: &mut C,
    what: D,
    call: &str,
    answer: io::Result<T>,
) -> Result<T, Failed>
    ensures passed_on { MatchResult answer (λ value. result ≡ Ok value) (λ _. IsErr result) }
    ensures counts { CountsFaults faults.old faults.new result }
{
    if let Err(error) = &answer {
        causes.tell(what, call, error);
    }
    counted(faults, answer)
}
