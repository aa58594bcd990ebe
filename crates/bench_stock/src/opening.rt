//! How an archive of a measurement is opened.
ghost use Rattle.std.specs.Prelude.{◌<◌, ◌^◌};

use archive_core::Archive;
use archive_reopening::reopen;
use archive_shelf::Depth;
use capture::Limits;
use disk_model::MemoryDisk;
use measuring::Stopped;
use std::alloc::Global;
use uuid::Uuid;

/// The archive on a disk.
pub fn opened(
    alloc: Global,
    disk: MemoryDisk,
    volume_bytes: u64,
    depth: Depth,
) -> Result<Archive<MemoryDisk>, Stopped>
    requires volume { volume_bytes < 2 ^ 62 }
{
    let limits = Limits {
        volume_bytes,
        captures: 2_000_000,
    };
    let namespace = Uuid::from_bytes([7; 16]);
    match reopen(alloc, disk, Some(namespace), limits, depth) {
        Ok(archive) => Ok(archive),
        Err(_) => Err(Stopped::Archive),
    }
}
