//! The bytes of a checkpoint's file.
ghost use Rattle.std.specs.Prelude.{◌≡◌, ◌<◌, ◌≤◌, ◌+◌, IfOk, IsTrue, OnOk, length};
ghost use Rattle.capture.specs.Faults.{CountsFaults};
ghost use Rattle.disk_model.specs.Crash.{Leaves};
ghost use Rattle.disk_model.specs.Image.{file_count};
ghost use Rattle.warc_journal.specs.Journals.{Rests};
ghost use Rattle.checkpoint.specs.Checkpoints.{checkpoint_of};
ghost use Rattle.checkpoint.specs.Faults.{CountsDisk};
ghost use Rattle.checkpoint.specs.Reading.{HasCheckpointOf};

use crate::CheckpointFault;
use capture::Failed;
use disk_model::{Disk, Kind};
use std::alloc::Global;

/// The bytes of the file, which is synced before it is read: none where it isn't there.
pub(crate) fn bytes_of<D: Disk>(
    alloc: Global,
    disk: &mut D,
    volume: u32,
) -> Result<Vec<u8>, CheckpointFault>
    ensures bytes { IsTrue D.tells → IfOk result (λ bytes. bytes.items ≡ checkpoint_of (D.reading disk.old) volume) }
    ensures synced { IsTrue D.tells → OnOk result (Leaves (D.images disk.new) (HasCheckpointOf (D.reading disk.old) volume)) }
    ensures rests { IsTrue D.tells → Rests D.Disk disk.old disk.new }
    ensures quick { D.moment disk.new ≤ D.moment disk.old + 4 }
    ensures faults { CountsDisk (D.faults disk.old) (D.faults disk.new) result }
{
    let len = synced_len(disk, volume)?;
    if len == 0 {
        return Ok(Vec::new(alloc));
    }
    read_whole(alloc, disk, volume, len)
}

/// The length of the file, which is synced first: 0 where it isn't there.
fn synced_len<D: Disk>(disk: &mut D, volume: u32) -> Result<u64, Failed>
    ensures len { IsTrue D.tells → IfOk result (λ len. len ≡ length (checkpoint_of (D.reading disk.old) volume)) }
    ensures there { IsTrue D.tells → IfOk result (λ len. 0 < len → volume < file_count (D.reading disk.old) Kind.Cdxj) }
    ensures synced { IsTrue D.tells → OnOk result (Leaves (D.images disk.new) (HasCheckpointOf (D.reading disk.old) volume)) }
    ensures rests { IsTrue D.tells → Rests D.Disk disk.old disk.new }
    ensures quick { D.moment disk.new ≤ D.moment disk.old + 3 }
    ensures faults { CountsFaults (D.faults disk.old) (D.faults disk.new) result }
{
    let count = disk.files(Kind::Cdxj)?;
    if count <= volume {
        return Ok(0);
    }
    disk.sync(Kind::Cdxj, volume)?;
    disk.len(Kind::Cdxj, volume)
}

/// All bytes of a file of this length.
fn read_whole<D: Disk>(
    alloc: Global,
    disk: &mut D,
    volume: u32,
    len: u64,
) -> Result<Vec<u8>, CheckpointFault>
    requires there { IsTrue D.tells → volume < file_count (D.reading disk.old) Kind.Cdxj }
    requires len { IsTrue D.tells → len ≡ length (checkpoint_of (D.reading disk.old) volume) }
    ensures bytes { IsTrue D.tells → IfOk result (λ bytes. bytes.items ≡ checkpoint_of (D.reading disk.old) volume) }
    ensures rests { IsTrue D.tells → Rests D.Disk disk.old disk.new }
    ensures quick { D.moment disk.new ≤ D.moment disk.old + 1 }
    ensures faults { CountsDisk (D.faults disk.old) (D.faults disk.new) result }
{
    let mut bytes = Vec::from_elem(alloc, 0u8, len as usize)?;
    match disk.read(Kind::Cdxj, volume, 0, bytes.as_mut_slice()) {
        Ok(()) => Ok(bytes),
        Err(_) => Err(CheckpointFault::DiskFault),
    }
}
