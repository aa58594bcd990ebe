//! A step that writes the checkpoints of volumes.
use archive_core::Archive;
use capture::Memory;
use checkpoint::CheckpointFault;
use disk_model::Disk;
use std::alloc::Global;

/// `settled` and how many checkpoints were written; or the fault.
pub fn settled<D: Disk>(alloc: Global, archive: &mut Archive<D>) -> Result<String, Memory> {
    match archive.settle(alloc) {
        Ok(written) => Ok(format!(in alloc; "settled {written}")?),
        Err(CheckpointFault::DiskFault) => Ok(String::from_str(alloc, "DiskFault")?),
        Err(CheckpointFault::Memory) => Err(Memory),
    }
}
