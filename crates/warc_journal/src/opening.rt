//! How the volumes that are found on a disk are made durable, before they are read.
ghost use Rattle.std.specs.Prelude.{◌≡◌, length, IsTrue, IfOk, OnOk};
ghost use Rattle.capture.specs.Faults.{CountsFaults};
ghost use Rattle.warc_journal.specs.Extents.{AreVolumesSynced, warc_files};
ghost use Rattle.warc_journal.specs.Journals.{Rests};

use crate::DiskFault;
use disk_model::{Disk, Kind};

/// Syncs each Warc file, and answers how many there are. A crash then leaves just the Warc files that a read gives.
pub fn sync_volumes<D: Disk>(disk: &mut D) -> Result<u32, DiskFault>
    ensures count { IsTrue D.tells → IfOk result (λ count. count ≡ length (warc_files (D.reading disk.new))) }
    ensures synced { IsTrue D.tells → OnOk result (AreVolumesSynced (D.reading disk.new) (D.images disk.new)) }
    ensures rests { IsTrue D.tells → Rests D.Disk disk.old disk.new }
    ensures faults { CountsFaults (D.faults disk.old) (D.faults disk.new) result }
{
    let count = disk.files(Kind::Warc)?;
    'files: for file in 0..count {
        disk.sync(Kind::Warc, file)?;
    }
    Ok(count)
}
