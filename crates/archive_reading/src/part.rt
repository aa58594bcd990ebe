//! Parts of the volumes' texts.
ghost use Rattle.std.specs.Prelude.{◌≡◌, ◌+◌, ◌≤◌, ◌<◌, IsTrue, IfOk, length};
ghost use Rattle.warc_journal.specs.Journals.{IsInStep, disk_of, texts};
ghost use Rattle.archive_shelf.specs.Answers.{CountsIf};
ghost use Rattle.archive_reading.specs.Bringing.{OnlyReads, bring_fault_of, is_read_fault, store_fault_of};
ghost use Rattle.archive_volumes.specs.Spots.{part, text_at};

use archive_shelf::{BringFault, StoreFault};
use archive_volumes::Volumes;
use capture::Memory;
use disk_model::Disk;
use std::alloc::{AllocError, Global};
use warc_journal::{DiskFault, Place};

/// Why bytes weren't read.
#[derive(Clone, Copy)]
pub enum ReadFault {
    /// The disk failed: its count of faults rose.
    DiskFault,
    /// There was no memory.
    Memory,
}

impl From<Memory> for ReadFault {
    ghost use Rattle.archive_reading.specs.declared.part.ReadFault.TheVariants.{Memory as OutOfMemory};

    ghost from_gives = { λ _ fault. fault ≡ OutOfMemory };

    fn from(_error: Memory) -> ReadFault {
        ReadFault::Memory
    }
}

impl From<AllocError> for ReadFault {
    ghost use Rattle.archive_reading.specs.declared.part.ReadFault.TheVariants.{Memory as OutOfMemory};

    ghost from_gives = { λ _ fault. fault ≡ OutOfMemory };

    fn from(_error: AllocError) -> ReadFault {
        ReadFault::Memory
    }
}

impl From<DiskFault> for ReadFault {
    ghost use Rattle.archive_reading.specs.declared.part.ReadFault.TheVariants.{DiskFault as DiskFailed};

    ghost from_gives = { λ _ fault. fault ≡ DiskFailed };

    fn from(_error: DiskFault) -> ReadFault {
        ReadFault::DiskFault
    }
}

impl From<ReadFault> for BringFault {
    ghost from_gives = { λ fault result. result ≡ bring_fault_of fault };

    fn from(fault: ReadFault) -> BringFault {
        match fault {
            ReadFault::DiskFault => BringFault::DiskFault,
            ReadFault::Memory => BringFault::Memory,
        }
    }
}

impl From<ReadFault> for StoreFault {
    ghost from_gives = { λ fault result. result ≡ store_fault_of fault };

    fn from(fault: ReadFault) -> StoreFault {
        match fault {
            ReadFault::DiskFault => StoreFault::DiskFault,
            ReadFault::Memory => StoreFault::Memory,
        }
    }
}

/// The bytes that stand at a place of the volumes' texts.
pub fn read_part<D: Disk>(
    alloc: Global,
    volumes: &mut Volumes<D>,
    place: Place,
) -> Result<Vec<u8>, ReadFault>
    requires in_step { IsTrue D.tells → IsInStep D.Disk volumes.old.journal }
    requires there { IsTrue D.tells → place.volume < length (texts D.Disk volumes.old.journal) }
    requires within { IsTrue D.tells → place.at + place.len ≤ length (text_at (texts D.Disk volumes.old.journal) place.volume) }
    ensures bytes { IsTrue D.tells → IfOk result (λ bytes. bytes.items
        ≡ part (text_at (texts D.Disk volumes.old.journal) place.volume) place.at place.len) }
    ensures length { IfOk result (λ bytes. length bytes.items ≡ place.len) }
    ensures reads { OnlyReads D.Disk volumes.old volumes.new }
    ensures faults { CountsIf (is_read_fault result) (D.faults (disk_of volumes.old.journal)) (D.faults (disk_of volumes.new.journal)) }
{
    let mut bytes = vec![in alloc; 0u8; place.len as usize]?;
    volumes.read(place.volume, place.at, bytes.as_mut_slice())?;
    Ok(bytes)
}
