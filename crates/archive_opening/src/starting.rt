//! How opening by checkpoints begins: what is read is made durable first.
ghost use Rattle.std.specs.Prelude.{◌≡◌, IfErr, IfOk, IsTrue, OnOk};
ghost use Rattle.capture.specs.Faults.{CountsFaults, Rose};
ghost use Rattle.warc_journal.specs.Journals.{Rests};
ghost use Rattle.volume_scan.specs.Scannings.{IsInPlace, begins_at, disk_of, position_of};
ghost use Rattle.archive_opening.specs.Telling.{AreCheckpointsSynced};

use archive_shelf::ReopenFault;
use disk_model::{Disk, Kind};
use std::alloc::Global;
use volume_scan::Scanning;
use warc_journal::DiskFault;

/// Syncs each Warc file and each checkpoint, also those of volumes that aren't sealed, so that a crash leaves just what is read; and begins before
/// the first volume. Refused, the disk is given back.
pub(crate) fn start<D: Disk>(alloc: Global, disk: D) -> Result<Scanning<D>, (ReopenFault, D)>
    ensures begins { IfOk result (λ scanning. position_of scanning ≡ begins_at) }
    ensures in_place { IfOk result (λ scanning. IsInPlace D.Disk scanning) }
    ensures synced { IfOk result (λ scanning. IsTrue D.tells → AreCheckpointsSynced (D.reading disk) (D.images (disk_of scanning))) }
    ensures rests { IfOk result (λ scanning. IsTrue D.tells → Rests D.Disk disk (disk_of scanning)) }
    ensures steady { IfOk result (λ scanning. D.faults (disk_of scanning) ≡ D.faults disk) }
    ensures refused { IfErr result (λ refused. refused.0 ≡ ReopenFault.DiskFault) }
    ensures given_back { IfErr result (λ refused. IsTrue D.tells → Rests D.Disk disk refused.1) }
    ensures rose { IfErr result (λ refused. Rose (D.faults disk) (D.faults refused.1)) }
{
    let mut disk = disk;
    match sync_checkpoints(&mut disk) {
        Ok(()) => match Scanning::start(alloc, disk) {
            Ok(scanning) => Ok(scanning),
            Err((_, disk)) => Err((ReopenFault::DiskFault, disk)),
        },
        Err(_) => Err((ReopenFault::DiskFault, disk)),
    }
}

/// Syncs each file of a checkpoint.
fn sync_checkpoints<D: Disk>(disk: &mut D) -> Result<(), DiskFault>
    ensures synced { IsTrue D.tells → OnOk result (AreCheckpointsSynced (D.reading disk.new) (D.images disk.new)) }
    ensures rests { IsTrue D.tells → Rests D.Disk disk.old disk.new }
    ensures faults { CountsFaults (D.faults disk.old) (D.faults disk.new) result }
{
    let count = disk.files(Kind::Cdxj)?;
    'files: for file in 0..count {
        disk.sync(Kind::Cdxj, file)?;
    }
    Ok(())
}
