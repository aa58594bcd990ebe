//! How a checkpoint is written.
ghost use Rattle.std.specs.Prelude.{◌≡◌, ◌≤◌, ◌+◌, Err, IsTrue, OnOk};
ghost use Rattle.disk_model.specs.Crash.{Leaves};
ghost use Rattle.disk_model.specs.Image.{file_count};
ghost use Rattle.checkpoint.specs.Checkpoints.{AreLinesFor};
ghost use Rattle.checkpoint.specs.Faults.{CountsDisk};
ghost use Rattle.checkpoint.specs.Putting.{HoldsCheckpoint, Puts};
ghost use Rattle.checkpoint.specs.declared.fault.CheckpointFault.TheVariants.{Memory as OutOfMemory};

use crate::CheckpointFault;
use crate::file::put_text;
use crate::lines::checkpoint_text;
use cdxj_line::Line;
use disk_model::{Disk, Kind};
use std::alloc::Global;

/// Writes the checkpoint of a volume, in place of what stands in its file, which is made where it isn't there.
///
/// A stop leaves the file as it was, unfinished, or with just these lines. `Memory` comes before the disk is touched, and
/// `DiskFault` only where the disk's count of faults rose; the file may then be unfinished or finished.
pub fn write_for<D: Disk>(
    alloc: Global,
    disk: &mut D,
    volume: u32,
    lines: &[Line],
) -> Result<(), CheckpointFault>
    requires next { IsTrue D.tells → volume ≤ file_count (D.reading disk.old) Kind.Cdxj }
    requires lines { AreLinesFor volume lines.now }
    ensures written { IsTrue D.tells → OnOk result (HoldsCheckpoint volume lines.now (D.reading disk.new)) }
    ensures only { IsTrue D.tells → OnOk result (Leaves (D.images disk.new) (HoldsCheckpoint volume lines.now)) }
    ensures puts { IsTrue D.tells → Puts D.Disk volume lines.now disk.old disk.new }
    ensures memory { result ≡ Err OutOfMemory → disk.new ≡ disk.old }
    ensures quick { D.moment disk.new ≤ D.moment disk.old + 15 }
    ensures faults { CountsDisk (D.faults disk.old) (D.faults disk.new) result }
{
    let text = checkpoint_text(alloc, lines)?;
    put_text(disk, volume, text.as_slice())?;
    Ok(())
}
