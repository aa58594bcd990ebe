//! The checkpoint of a volume that is to have these lines: it is written where it isn't there.
ghost use Rattle.std.specs.Prelude.{◌≡◌, ◌↔◌, ◌≤◌, IfOk, IsTrue};
ghost use Rattle.disk_model.specs.Image.{file_count};
ghost use Rattle.warc_journal.specs.Journals.{Rests, disk_of, extent_of};
ghost use Rattle.checkpoint.specs.Checkpoints.{AreLinesFor};
ghost use Rattle.checkpoint.specs.Faults.{CountsDisk};
ghost use Rattle.archive_settling.specs.Settling.{IsDue, Supplies};

use cdxj_line::Line;
use checkpoint::{CheckpointFault, read_for, write_for};
use disk_model::{Disk, Kind};
use std::alloc::Global;
use warc_journal::Journal;

/// Writes the checkpoint of a volume with these lines on a journal's disk, where it isn't there. Whether it was written.
///
/// It isn't written either where the file of an earlier volume isn't there, since files are numbered without gaps.
pub(crate) fn supply<D: Disk>(
    alloc: Global,
    journal: &mut Journal<D>,
    volume: u32,
    lines: &[Line],
) -> Result<bool, CheckpointFault>
    requires lines { AreLinesFor volume lines.now }
    ensures extent { extent_of journal.new ≡ extent_of journal.old }
    ensures supplies { IsTrue D.tells → Supplies D.Disk volume lines.now (disk_of journal.old) (disk_of journal.new) result }
    ensures faults { CountsDisk (D.faults (disk_of journal.old)) (D.faults (disk_of journal.new)) result }
{
    supply_on(alloc, journal.disk(), volume, lines)
}

/// The same, on a disk.
fn supply_on<D: Disk>(
    alloc: Global,
    disk: &mut D,
    volume: u32,
    lines: &[Line],
) -> Result<bool, CheckpointFault>
    requires lines { AreLinesFor volume lines.now }
    ensures supplies { IsTrue D.tells → Supplies D.Disk volume lines.now disk.old disk.new result }
    ensures faults { CountsDisk (D.faults disk.old) (D.faults disk.new) result }
{
    let due = is_due(alloc, disk, volume, lines)?;
    if !due {
        return Ok(false);
    }
    write_for(alloc, disk, volume, lines)?;
    Ok(true)
}

/// Whether the checkpoint of a volume with these lines has to be written, and can be.
fn is_due<D: Disk>(
    alloc: Global,
    disk: &mut D,
    volume: u32,
    lines: &[Line],
) -> Result<bool, CheckpointFault>
    ensures due { IsTrue D.tells → IfOk result (IsDue D.Disk volume lines.now disk.old disk.new) }
    ensures rests { IsTrue D.tells → Rests D.Disk disk.old disk.new }
    ensures faults { CountsDisk (D.faults disk.old) (D.faults disk.new) result }
{
    match read_for(alloc, disk, volume)? {
        Some(found) => Ok(!are_same(found, lines)),
        None => has_place(disk, volume),
    }
}

/// Whether the files of the checkpoints before a volume's are there.
fn has_place<D: Disk>(disk: &mut D, volume: u32) -> Result<bool, CheckpointFault>
    ensures place { IsTrue D.tells → IfOk result (λ is. IsTrue is ↔ volume ≤ file_count (D.reading disk.old) Kind.Cdxj) }
    ensures rests { IsTrue D.tells → Rests D.Disk disk.old disk.new }
    ensures faults { CountsDisk (D.faults disk.old) (D.faults disk.new) result }
{
    let count = disk.files(Kind::Cdxj)?;
    Ok(volume <= count)
}

/// Whether the lines that were found are these.
fn are_same(found: Vec<Line>, lines: &[Line]) -> bool
    ensures { IsTrue result ↔ found.items ≡ lines.now }
{
    found.as_slice() == lines
}
