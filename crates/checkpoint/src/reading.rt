//! How a checkpoint is read.
ghost use Rattle.std.specs.Prelude.{◌≤◌, ◌+◌, IfOk, IfSome, IsTrue, MatchOption, OnOk};
ghost use Rattle.disk_model.specs.Crash.{Leaves};
ghost use Rattle.warc_journal.specs.Journals.{Rests};
ghost use Rattle.checkpoint.specs.Checkpoints.{AreLinesFor, IsCheckpoint, checkpoint_of};
ghost use Rattle.checkpoint.specs.Faults.{CountsDisk};
ghost use Rattle.checkpoint.specs.Reading.{HasCheckpointOf, IsNoCheckpoint};

use crate::CheckpointFault;
use crate::bytes::bytes_of;
use crate::parse::lines_of;
use cdxj_line::Line;
use disk_model::Disk;
use std::alloc::Global;

/// The lines of a volume's checkpoint, and `None` exactly where its file isn't there or isn't a finished checkpoint of that
/// volume. The file is synced before it is read, so a crash leaves what is answered.
///
/// `DiskFault` comes only where the disk's count of faults rose.
pub fn read_for<D: Disk>(
    alloc: Global,
    disk: &mut D,
    volume: u32,
) -> Result<Option<Vec<Line>>, CheckpointFault>
    ensures read { IsTrue D.tells → IfOk result (λ read. MatchOption read
        (IsNoCheckpoint volume (checkpoint_of (D.reading disk.old) volume))
        (λ lines. IsCheckpoint volume lines.items (checkpoint_of (D.reading disk.old) volume))) }
    ensures fit { IfOk result (λ read. IfSome read (λ lines. AreLinesFor volume lines.items)) }
    ensures synced { IsTrue D.tells → OnOk result (Leaves (D.images disk.new) (HasCheckpointOf (D.reading disk.old) volume)) }
    ensures rests { IsTrue D.tells → Rests D.Disk disk.old disk.new }
    ensures quick { D.moment disk.new ≤ D.moment disk.old + 4 }
    ensures faults { CountsDisk (D.faults disk.old) (D.faults disk.new) result }
{
    let bytes = bytes_of(alloc, disk, volume)?;
    let lines = lines_of(alloc, volume, bytes.as_slice())?;
    Ok(lines)
}
