//! Why a call of an archive answers no Ok.
ghost use Rattle.std.specs.Prelude.{◌≡◌};

use capture::{Digest, Memory};
use disk_model::Kind;
use std::alloc::AllocError;
use thiserror::Error;
use uuid::Uuid;
use warc_journal::DiskFault;

/// Why a capture wasn't stored.
#[derive(Clone, Copy, Debug, Error)]
pub enum StoreFault {
    /// The archive holds as many captures as it may: `count` is how many it holds, `limit` its limit.
    #[error("the archive is full: it holds {count} captures, and its limit is {limit}")]
    Full {
        count: u32,
        limit: u32,
    },
    /// The disk failed: its count of faults rose. A new volume may be there, without a capture.
    #[error("the disk failed")]
    DiskFault,
    /// The bytes that were read of an earlier capture, to be compared, have another digest than the one kept, or don't
    /// decode (`None`).
    #[error("capture {number} is damaged")]
    Damaged {
        number: u32,
        kept: Digest,
        found: Option<Digest>,
    },
    /// There was no memory. Nothing was written.
    #[error("no memory")]
    Memory,
}

impl From<Memory> for StoreFault {
    ghost use Rattle.archive_shelf.specs.declared.fault.StoreFault.TheVariants.{Memory as OutOfMemory};

    ghost from_gives = { λ _ fault. fault ≡ OutOfMemory };

    fn from(_error: Memory) -> StoreFault {
        StoreFault::Memory
    }
}

impl From<AllocError> for StoreFault {
    ghost use Rattle.archive_shelf.specs.declared.fault.StoreFault.TheVariants.{Memory as OutOfMemory};

    ghost from_gives = { λ _ fault. fault ≡ OutOfMemory };

    fn from(_error: AllocError) -> StoreFault {
        StoreFault::Memory
    }
}

impl From<DiskFault> for StoreFault {
    ghost use Rattle.archive_shelf.specs.declared.fault.StoreFault.TheVariants.{DiskFault as DiskFailed};

    ghost from_gives = { λ _ fault. fault ≡ DiskFailed };

    fn from(_error: DiskFault) -> StoreFault {
        StoreFault::DiskFault
    }
}

/// Why a capture wasn't brought.
#[derive(Clone, Copy, Debug, Error)]
pub enum BringFault {
    /// There is no capture of that number: `count` is how many there are.
    #[error("there are {count} captures, and none of this number")]
    NoSuch {
        count: u32,
    },
    /// The disk failed: its count of faults rose.
    #[error("the disk failed")]
    DiskFault,
    /// The bytes that were read have another digest than the one kept, or don't decode (`None`). `number` is that of the
    /// capture that keeps the payload, or of a revisit whose own head doesn't decode.
    #[error("capture {number} is damaged")]
    Damaged {
        number: u32,
        kept: Digest,
        found: Option<Digest>,
    },
    /// There was no memory.
    #[error("no memory")]
    Memory,
}

impl From<Memory> for BringFault {
    ghost use Rattle.archive_shelf.specs.declared.fault.BringFault.TheVariants.{Memory as OutOfMemory};

    ghost from_gives = { λ _ fault. fault ≡ OutOfMemory };

    fn from(_error: Memory) -> BringFault {
        BringFault::Memory
    }
}

impl From<AllocError> for BringFault {
    ghost use Rattle.archive_shelf.specs.declared.fault.BringFault.TheVariants.{Memory as OutOfMemory};

    ghost from_gives = { λ _ fault. fault ≡ OutOfMemory };

    fn from(_error: AllocError) -> BringFault {
        BringFault::Memory
    }
}

impl From<DiskFault> for BringFault {
    ghost use Rattle.archive_shelf.specs.declared.fault.BringFault.TheVariants.{DiskFault as DiskFailed};

    ghost from_gives = { λ _ fault. fault ≡ DiskFailed };

    fn from(_error: DiskFault) -> BringFault {
        BringFault::DiskFault
    }
}

/// Why no volume was begun.
#[derive(Clone, Copy, Debug, Error)]
pub enum RollFault {
    /// The disk failed: its count of faults rose.
    #[error("the disk failed")]
    DiskFault,
    /// There was no memory. Nothing was written.
    #[error("no memory")]
    Memory,
}

impl From<Memory> for RollFault {
    ghost use Rattle.archive_shelf.specs.declared.fault.RollFault.TheVariants.{Memory as OutOfMemory};

    ghost from_gives = { λ _ fault. fault ≡ OutOfMemory };

    fn from(_error: Memory) -> RollFault {
        RollFault::Memory
    }
}

impl From<DiskFault> for RollFault {
    ghost use Rattle.archive_shelf.specs.declared.fault.RollFault.TheVariants.{DiskFault as DiskFailed};

    ghost from_gives = { λ _ fault. fault ≡ DiskFailed };

    fn from(_error: DiskFault) -> RollFault {
        RollFault::DiskFault
    }
}

/// Why an archive wasn't opened. Nothing on the disk was changed.
#[derive(Clone, Copy, Debug, Error)]
pub enum ReopenFault {
    /// The files stand for no sound book: `place` is where in `file` the first group, warcinfo or remainder stands with
    /// which none goes on, in bytes.
    #[error("damage in file {file} at byte {place}")]
    Damaged { kind: Kind, file: u32, place: u64 },
    /// A namespace was given, and the archive has this other one.
    #[error("the archive has another namespace")]
    OtherNamespace(Uuid),
    /// The disk failed: its count of faults rose.
    #[error("the disk failed")]
    DiskFault,
    /// There was no memory.
    #[error("no memory")]
    Memory,
}

impl From<Memory> for ReopenFault {
    ghost use Rattle.archive_shelf.specs.declared.fault.ReopenFault.TheVariants.{Memory as OutOfMemory};

    ghost from_gives = { λ _ fault. fault ≡ OutOfMemory };

    fn from(_error: Memory) -> ReopenFault {
        ReopenFault::Memory
    }
}

impl From<DiskFault> for ReopenFault {
    ghost use Rattle.archive_shelf.specs.declared.fault.ReopenFault.TheVariants.{DiskFault as DiskFailed};

    ghost from_gives = { λ _ fault. fault ≡ DiskFailed };

    fn from(_error: DiskFault) -> ReopenFault {
        ReopenFault::DiskFault
    }
}
