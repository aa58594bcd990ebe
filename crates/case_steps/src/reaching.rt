//! Whether a disk has a file, and so many bytes of it.
ghost use Rattle.std.specs.Prelude.{◌≡◌, ◌<◌, ◌≤◌, length, OnOk};
ghost use Rattle.disk_model.specs.Device.{reading_of};
ghost use Rattle.disk_model.specs.Image.{file_count, file_of};

use disk_model::{Disk, Kind, MemoryDisk};

/// What isn't there.
#[derive(Clone, Copy)]
pub enum Absent {
    File,
    /// Bytes of the file up to this place.
    Range,
}

/// Whether the disk has the file, and its bytes up to this place, as the calls of a disk want it. It counts no call.
pub fn look(disk: &MemoryDisk, kind: Kind, file: u32, end: u64) -> Result<(), Absent>
    ensures there { OnOk result (file < file_count (reading_of disk.now) kind) }
    ensures in_range { OnOk result (end ≤ length (file_of (reading_of disk.now) kind file)) }
{
    match disk.file_len(kind, file) {
        Some(len) if end <= len => Ok(()),
        Some(_) => Err(Absent::Range),
        None => Err(Absent::File),
    }
}

/// Asks the disk whether it has the file, and its bytes up to this place, by calls that it counts.
pub fn reach(disk: &mut MemoryDisk, kind: Kind, file: u32, end: u64) -> Result<(), Absent>
    ensures there { OnOk result (file < file_count (reading_of disk.new) kind) }
    ensures in_range { OnOk result (end ≤ length (file_of (reading_of disk.new) kind file)) }
    ensures first { disk.new.first ≡ disk.old.first }
    ensures changes { disk.new.changes ≡ disk.old.changes }
{
    match disk.files(kind) {
        Ok(count) if file < count => has_end(disk, kind, file, end),
        _ => Err(Absent::File),
    }
}

/// Asks the disk whether a file that is there has its bytes up to this place.
fn has_end(disk: &mut MemoryDisk, kind: Kind, file: u32, end: u64) -> Result<(), Absent>
    requires { file < file_count (reading_of disk.old) kind }
    ensures there { OnOk result (file < file_count (reading_of disk.new) kind) }
    ensures in_range { OnOk result (end ≤ length (file_of (reading_of disk.new) kind file)) }
    ensures first { disk.new.first ≡ disk.old.first }
    ensures changes { disk.new.changes ≡ disk.old.changes }
{
    match disk.len(kind, file) {
        Ok(len) if end <= len => Ok(()),
        _ => Err(Absent::Range),
    }
}
