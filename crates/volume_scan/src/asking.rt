//! Reads a file on until it is known what stands next in it.
ghost use Rattle.std.specs.Prelude.{◌≡◌, ◌-◌, ◌<◌, ◌^◌, IfOk, IsTrue, drop, length};
ghost use Rattle.warc_journal.specs.Extents.{warc_files};
ghost use Rattle.warc_journal.specs.Journals.{Rests};
ghost use Rattle.volume_scan.specs.steps.Next.{FitsGroup, FitsInfo, IsNextGroup, IsNextInfo};
ghost use Rattle.volume_scan.specs.Unread.{file_at};
ghost use Rattle.volume_scan.specs.steps.Readings.{CountsRead, IsAt};
ghost use Rattle.volume_scan.specs.Windows.{IsInside, Shows};

use crate::ScanFault;
use crate::next::{NextGroup, NextInfo, Unsaid, judge_group, judge_info};
use crate::window::Window;
use disk_model::Disk;
use std::alloc::Global;
use uuid::Uuid;
use warc_text::info_len;

/// How many bytes of groups are read at first, if a file has them.
const PIECE: u64 = 1_048_576;

/// So many bytes tell a tail from a committed text.
const FIRST_BYTES: u64 = 2;

/// What stands in the window's file from a place on, where the group with this number is due.
pub fn read_group<D: Disk>(
    alloc: Global,
    disk: &mut D,
    window: &mut Window,
    place: u64,
    namespace: &Uuid,
    number: u32,
) -> Result<NextGroup, ScanFault>
    requires at { IsAt window.old window.old.file place }
    requires inside { IsInside window.old }
    requires there { IsTrue D.tells → window.old.file < length (warc_files (D.reading disk.old)) }
    requires shows { IsTrue D.tells → Shows window.old (warc_files (D.reading disk.old)) }
    ensures next { IsTrue D.tells → IfOk result (IsNextGroup namespace.now number
        (drop place (file_at (warc_files (D.reading disk.old)) window.old.file))) }
    ensures fits { IfOk result (FitsGroup namespace.now number (2 ^ 64 - 1 - place)) }
    ensures inside { IsInside window.new }
    ensures same { window.new.file ≡ window.old.file }
    ensures len { window.new.len ≡ window.old.len }
    ensures shows { IsTrue D.tells → Shows window.new (warc_files (D.reading disk.new)) }
    ensures rests { IsTrue D.tells → Rests D.Disk disk.old disk.new }
    ensures faults { CountsRead (D.faults disk.old) (D.faults disk.new) result }
{
    let mut least = FIRST_BYTES;
    let mut beyond = PIECE;
    'asking: loop {
        window.reach(alloc, disk, place, least, beyond)?;
        let room = window.len() - place;
        match judge_group(alloc, window.behind(place), room, namespace, number) {
            Ok(next) => return Ok(next),
            Err(Unsaid::Need(n)) => least = n,
            Err(Unsaid::Memory) => return Err(ScanFault::Memory),
        }
        // What was read is judged anew, and a long target asks for one byte more at a time.
        beyond = beyond.saturating_mul(2);
    }
}

/// What the window's file holds, which is to be the volume with this number. Of a volume no more than its warcinfo is read, so
/// that the rest may be skipped.
pub fn read_info<D: Disk>(
    alloc: Global,
    disk: &mut D,
    window: &mut Window,
    volume: u32,
) -> Result<NextInfo, ScanFault>
    requires at { IsAt window.old window.old.file 0 }
    requires inside { IsInside window.old }
    requires there { IsTrue D.tells → window.old.file < length (warc_files (D.reading disk.old)) }
    requires shows { IsTrue D.tells → Shows window.old (warc_files (D.reading disk.old)) }
    ensures next { IsTrue D.tells → IfOk result (IsNextInfo volume
        (file_at (warc_files (D.reading disk.old)) window.old.file)) }
    ensures fits { IfOk result (FitsInfo volume) }
    ensures inside { IsInside window.new }
    ensures same { window.new.file ≡ window.old.file }
    ensures len { window.new.len ≡ window.old.len }
    ensures shows { IsTrue D.tells → Shows window.new (warc_files (D.reading disk.new)) }
    ensures rests { IsTrue D.tells → Rests D.Disk disk.old disk.new }
    ensures faults { CountsRead (D.faults disk.old) (D.faults disk.new) result }
{
    let mut least = info_len(volume, 0);
    'asking: loop {
        window.reach(alloc, disk, 0, least, 0)?;
        let room = window.len();
        match judge_info(alloc, window.behind(0), room, volume) {
            Ok(next) => return Ok(next),
            Err(Unsaid::Need(n)) => least = n,
            Err(Unsaid::Memory) => return Err(ScanFault::Memory),
        }
    }
}
