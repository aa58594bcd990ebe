//! Why a checkpoint wasn't written or read.
ghost use Rattle.std.specs.Prelude.{◌≡◌};

use capture::{Failed, Memory};
use std::alloc::AllocError;
use thiserror::Error;

/// Why a checkpoint wasn't written or read.
#[derive(Clone, Copy, Debug, Error)]
pub enum CheckpointFault {
    /// The disk failed: its count of faults rose.
    #[error("the disk failed")]
    DiskFault,
    /// There was no memory. Nothing was written.
    #[error("no memory")]
    Memory,
}

impl From<Failed> for CheckpointFault {
    ghost use Rattle.checkpoint.specs.declared.fault.CheckpointFault.TheVariants.{DiskFault as DiskFailed};

    ghost from_gives = { λ _ fault. fault ≡ DiskFailed };

    fn from(_error: Failed) -> CheckpointFault {
        CheckpointFault::DiskFault
    }
}

impl From<Memory> for CheckpointFault {
    ghost use Rattle.checkpoint.specs.declared.fault.CheckpointFault.TheVariants.{Memory as OutOfMemory};

    ghost from_gives = { λ _ fault. fault ≡ OutOfMemory };

    fn from(_error: Memory) -> CheckpointFault {
        CheckpointFault::Memory
    }
}

impl From<AllocError> for CheckpointFault {
    ghost use Rattle.checkpoint.specs.declared.fault.CheckpointFault.TheVariants.{Memory as OutOfMemory};

    ghost from_gives = { λ _ fault. fault ≡ OutOfMemory };

    fn from(_error: AllocError) -> CheckpointFault {
        CheckpointFault::Memory
    }
}
