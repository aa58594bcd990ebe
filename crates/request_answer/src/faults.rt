//! Why a request is refused, by the fault that was met. None says that there was no memory.
ghost use Rattle.std.specs.Prelude.{◌≡◌};
ghost use Rattle.request_answer.specs.steps.Declining as spec;

use archive_shelf::{BringFault, StoreFault};
use capture::Refusal;
use exchange::FetchFault;

/// Why a request is refused of which no response came.
pub fn why_unfetched(fault: FetchFault) -> Option<Refusal>
    ensures { result ≡ spec.refusal_by_fetch fault }
{
    match fault {
        FetchFault::DialFault => Some(Refusal::DialFault),
        FetchFault::OriginFault => Some(Refusal::OriginFault),
        FetchFault::OriginEnded => Some(Refusal::OriginEnded),
        FetchFault::OriginMalformed => Some(Refusal::OriginMalformed),
        FetchFault::OriginTooLong => Some(Refusal::OriginTooLong),
        FetchFault::TooManyInterim => Some(Refusal::TooManyInterim),
        FetchFault::Memory => None,
    }
}

/// Why a request is refused whose capture wasn't stored.
pub fn why_unstored(fault: StoreFault) -> Option<Refusal>
    ensures { result ≡ spec.refusal_by_store fault }
{
    match fault {
        StoreFault::Full { count, limit } => Some(Refusal::Full { count, limit }),
        StoreFault::DiskFault => Some(Refusal::DiskFault),
        StoreFault::Damaged {
            number,
            kept,
            found,
        } => Some(Refusal::Damaged {
            number,
            kept,
            found,
        }),
        StoreFault::Memory => None,
    }
}

/// Why a request for the capture with this number, or for its piece, is refused.
pub fn why_unbrought(number: u32, fault: BringFault) -> Option<Refusal>
    ensures { result ≡ spec.refusal_by_bring number fault }
{
    match fault {
        BringFault::NoSuch { count } => Some(Refusal::NoSuch { number, count }),
        BringFault::DiskFault => Some(Refusal::DiskFault),
        BringFault::Damaged {
            number: at,
            kept,
            found,
        } => Some(Refusal::Damaged {
            number: at,
            kept,
            found,
        }),
        BringFault::Memory => None,
    }
}
