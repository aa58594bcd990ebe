//! Why a volume wasn't checked.
ghost use Rattle.std.specs.Prelude.{◌≡◌};

use capture::{Failed, Memory};
use std::alloc::AllocError;
use thiserror::Error;

/// Why a volume wasn't checked.
#[derive(Clone, Copy, Debug, Error)]
pub enum FixityFault {
    /// The disk failed: its count of faults rose.
    #[error("the disk failed")]
    DiskFault,
    /// There was no memory.
    #[error("no memory")]
    Memory,
}

impl From<Failed> for FixityFault {
    ghost use Rattle.fixity.specs.declared.fault.FixityFault.TheVariants.{DiskFault as DiskFailed};

    ghost from_gives = { λ _ fault. fault ≡ DiskFailed };

    fn from(_error: Failed) -> FixityFault {
        FixityFault::DiskFault
    }
}

impl From<Memory> for FixityFault {
    ghost use Rattle.fixity.specs.declared.fault.FixityFault.TheVariants.{Memory as OutOfMemory};

    ghost from_gives = { λ _ fault. fault ≡ OutOfMemory };

    fn from(_error: Memory) -> FixityFault {
        FixityFault::Memory
    }
}

impl From<AllocError> for FixityFault {
    ghost use Rattle.fixity.specs.declared.fault.FixityFault.TheVariants.{Memory as OutOfMemory};

    ghost from_gives = { λ _ fault. fault ≡ OutOfMemory };

    fn from(_error: AllocError) -> FixityFault {
        FixityFault::Memory
    }
}
