//! Why the volumes weren't read on.
ghost use Rattle.std.specs.Prelude.{◌≡◌};

use std::alloc::AllocError;
use thiserror::Error;
use warc_journal::DiskFault;

/// Why a step answers no Ok.
#[derive(Clone, Copy, Debug, Error)]
pub enum ScanFault {
    /// The files hold no archive: in this file, from this place on, stands nothing with which what was read goes on.
    #[error("damaged in file {file} at byte {place}")]
    Damaged {
        /// The number of the file.
        file: u32,
        /// The place in it, in bytes.
        place: u64,
    },
    /// The disk failed: its count of faults rose.
    #[error("the disk failed")]
    DiskFault,
    /// There was no memory.
    #[error("no memory")]
    Memory,
}

impl From<AllocError> for ScanFault {
    ghost use Rattle.volume_scan.specs.declared.fault.ScanFault.TheVariants.{Memory as OutOfMemory};

    ghost from_gives = { λ _ fault. fault ≡ OutOfMemory };

    fn from(_error: AllocError) -> ScanFault {
        ScanFault::Memory
    }
}

impl From<DiskFault> for ScanFault {
    ghost use Rattle.volume_scan.specs.declared.fault.ScanFault.TheVariants.{DiskFault as DiskFailed};

    ghost from_gives = { λ _ fault. fault ≡ DiskFailed };

    fn from(_error: DiskFault) -> ScanFault {
        ScanFault::DiskFault
    }
}
