//! The file of a checkpoint: how its text is put there, so that a stop leaves it whole or unfinished.
ghost use Rattle.std.specs.Prelude.{◌≡◌, ◌+◌, ◌<◌, ◌≤◌, ◌^◌, [], IsTrue, OnOk, length};
ghost use Rattle.capture.specs.Faults.{CountsFaults};
ghost use Rattle.capture.specs.Tails.{IsCommitted};
ghost use Rattle.disk_model.specs.Crash.{HasFile, Leaves};
ghost use Rattle.disk_model.specs.Image.{file_count};
ghost use Rattle.checkpoint.specs.Putting.{commit_byte};
ghost use Rattle.checkpoint.specs.steps.Texts.{Makes, PutsText};

use capture::Failed;
use disk_model::{Disk, Kind};
use gated_file::GatedFile;

/// The first byte of a finished checkpoint.
const COMMIT: u8 = b'!';

/// Puts a text into the file of a volume's checkpoint, in place of what stands there.
pub(crate) fn put_text<D: Disk>(disk: &mut D, volume: u32, text: &[u8]) -> Result<(), Failed>
    requires next { IsTrue D.tells → volume ≤ file_count (D.reading disk.old) Kind.Cdxj }
    requires committed { IsCommitted commit_byte text.now }
    requires fits { length text.now < 2 ^ 64 }
    ensures written { IsTrue D.tells → OnOk result (HasFile Kind.Cdxj volume text.now (D.reading disk.new)) }
    ensures only { IsTrue D.tells → OnOk result (Leaves (D.images disk.new) (HasFile Kind.Cdxj volume text.now)) }
    ensures puts { IsTrue D.tells → PutsText D.Disk volume text.now disk.old disk.new }
    ensures quick { D.moment disk.new ≤ D.moment disk.old + 15 }
    ensures faults { CountsFaults (D.faults disk.old) (D.faults disk.new) result }
{
    make_file(disk, volume)?;
    write_file(disk, volume, text)
}

/// Makes the file of a volume's checkpoint, where it isn't there.
fn make_file<D: Disk>(disk: &mut D, volume: u32) -> Result<(), Failed>
    requires next { IsTrue D.tells → volume ≤ file_count (D.reading disk.old) Kind.Cdxj }
    ensures there { IsTrue D.tells → OnOk result (volume < file_count (D.reading disk.new) Kind.Cdxj) }
    ensures makes { IsTrue D.tells → Makes D.Disk volume disk.old disk.new }
    ensures quick { D.moment disk.new ≤ D.moment disk.old + 2 }
    ensures faults { CountsFaults (D.faults disk.old) (D.faults disk.new) result }
{
    let count = disk.files(Kind::Cdxj)?;
    if count <= volume {
        disk.create(Kind::Cdxj)?;
    }
    Ok(())
}

/// Writes the text, where the file is there.
///
/// The file counts as dirty always: nothing is known of what a stop has left of it. For one that was just made this costs the
/// calls of a mending.
fn write_file<D: Disk>(disk: &mut D, volume: u32, text: &[u8]) -> Result<(), Failed>
    requires there { IsTrue D.tells → volume < file_count (D.reading disk.old) Kind.Cdxj }
    requires committed { IsCommitted commit_byte text.now }
    requires fits { length text.now < 2 ^ 64 }
    ensures written { IsTrue D.tells → OnOk result (HasFile Kind.Cdxj volume text.now (D.reading disk.new)) }
    ensures only { IsTrue D.tells → OnOk result (Leaves (D.images disk.new) (HasFile Kind.Cdxj volume text.now)) }
    ensures puts { IsTrue D.tells → PutsText D.Disk volume text.now disk.old disk.new }
    ensures quick { D.moment disk.new ≤ D.moment disk.old + 13 }
    ensures faults { CountsFaults (D.faults disk.old) (D.faults disk.new) result }
{
    let mut file = GatedFile {
        kind: Kind::Cdxj,
        file: volume,
        commit: COMMIT,
        end: 0,
        is_dirty: true,
    };
    file.append(disk, text)
}

/// Takes away what stands in the file of a volume's checkpoint, where the file is there.
pub(crate) fn clear_file<D: Disk>(disk: &mut D, volume: u32) -> Result<(), Failed>
    requires there { IsTrue D.tells → volume < file_count (D.reading disk.old) Kind.Cdxj }
    ensures cleared { IsTrue D.tells → OnOk result (Leaves (D.images disk.new) (HasFile Kind.Cdxj volume [])) }
    ensures puts { IsTrue D.tells → PutsText D.Disk volume [] disk.old disk.new }
    ensures faults { CountsFaults (D.faults disk.old) (D.faults disk.new) result }
{
    let mut file = GatedFile {
        kind: Kind::Cdxj,
        file: volume,
        commit: COMMIT,
        end: 0,
        is_dirty: true,
    };
    file.mend(disk)
}
