//! Why a piece wasn't taken.
ghost use Rattle.std.specs.Prelude.{◌≡◌};

use archive_reading::ReadFault;
use capture::{Digest, Memory};
use thiserror::Error;

/// Why a piece wasn't taken.
#[derive(Clone, Copy, Debug, Error)]
pub enum PieceFault {
    /// The archive holds as many captures as it may: `count` is how many it holds, `limit` its limit.
    #[error("the archive is full: it holds {count} captures, and its limit is {limit}")]
    Full {
        count: u32,
        limit: u32,
    },
    /// No sound book has these bytes as the piece of its next capture.
    #[error("these bytes are no piece of the next capture")]
    NotAPiece,
    /// The disk failed: its count of faults rose. The piece's volume may be there, without a capture.
    #[error("the disk failed")]
    DiskFault,
    /// What was read of the capture to which the piece refers has another digest than the one kept, or is no group of it
    /// (`None`).
    #[error("capture {number} is damaged")]
    Damaged {
        number: u32,
        kept: Digest,
        found: Option<Digest>,
    },
    /// There was no memory. Nothing was written.
    #[error("no memory")]
    Memory,
}

impl From<Memory> for PieceFault {
    ghost use Rattle.archive_pieces.specs.declared.fault.PieceFault.TheVariants.{Memory as OutOfMemory};

    ghost from_gives = { λ _ fault. fault ≡ OutOfMemory };

    fn from(_error: Memory) -> PieceFault {
        PieceFault::Memory
    }
}

impl From<ReadFault> for PieceFault {
    ghost use Rattle.archive_pieces.specs.PieceFaults.{piece_fault_of};

    ghost from_gives = { λ fault result. result ≡ piece_fault_of fault };

    fn from(fault: ReadFault) -> PieceFault {
        match fault {
            ReadFault::DiskFault => PieceFault::DiskFault,
            ReadFault::Memory => PieceFault::Memory,
        }
    }
}
