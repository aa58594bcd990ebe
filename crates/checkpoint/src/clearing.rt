//! How the checkpoints of volumes that aren't sealed are taken away.
ghost use Rattle.std.specs.Prelude.{◌≡◌, IfOk, IsTrue, OnOk};
ghost use Rattle.capture.specs.Faults.{CountsFaults};
ghost use Rattle.disk_model.specs.Crash.{Leaves};
ghost use Rattle.warc_journal.specs.Extents.{warc_files};
ghost use Rattle.warc_journal.specs.Journals.{Rests};
ghost use Rattle.checkpoint.specs.Clearing.{AreCleared, Clears, ClearsUnsealed, IsCleared, sealed_count};

use crate::file::clear_file;
use capture::Failed;
use disk_model::{Disk, Kind};

/// Takes away the checkpoints of volumes that aren't sealed: that of the last one, and those of volumes that there are none of. Their files stay, and are empty.
///
/// None stands there, unless a file of the archive was put there or taken away by hand. The last volume still grows, and a finished checkpoint beside it
/// would count as soon as another volume stands behind it, with fewer captures than it has by then. So this comes before an archive is opened to store.
///
/// A volume that has another file behind it is sealed, whatever stands in that file: its finished checkpoint is the sign that the file once began a
/// volume, so that an opening finds the file damaged where it doesn't any more.
/// A stop leaves each file as it was, unfinished, or empty. `Failed` comes only where the disk's count of faults rose.
pub fn clear_unsealed<D: Disk>(disk: &mut D) -> Result<(), Failed>
    ensures cleared { IsTrue D.tells → OnOk result (IsCleared D.Disk disk.old disk.new) }
    ensures clears { IsTrue D.tells → ClearsUnsealed D.Disk disk.old disk.new }
    ensures faults { CountsFaults (D.faults disk.old) (D.faults disk.new) result }
{
    let sealed = count_sealed(disk)?;
    clear_from(disk, sealed)
}

/// How many volumes are sealed: all that have a file behind them.
fn count_sealed<D: Disk>(disk: &mut D) -> Result<u32, Failed>
    ensures sealed { IsTrue D.tells → IfOk result (λ sealed. sealed ≡ sealed_count (warc_files (D.reading disk.old))) }
    ensures rests { IsTrue D.tells → Rests D.Disk disk.old disk.new }
    ensures faults { CountsFaults (D.faults disk.old) (D.faults disk.new) result }
{
    let count = disk.files(Kind::Warc)?;
    Ok(count.saturating_sub(1))
}

/// Takes away what stands in the files of the checkpoints from a volume's on.
fn clear_from<D: Disk>(disk: &mut D, first: u32) -> Result<(), Failed>
    ensures cleared { IsTrue D.tells → OnOk result (Leaves (D.images disk.new) (AreCleared first)) }
    ensures clears { IsTrue D.tells → Clears D.Disk first disk.old disk.new }
    ensures faults { CountsFaults (D.faults disk.old) (D.faults disk.new) result }
{
    let count = disk.files(Kind::Cdxj)?;
    let mut volume = first;
    'volumes: while volume < count {
        clear_file(disk, volume)?;
        volume += 1;
    }
    Ok(())
}
