//! Checkpoints on a disk in memory, as steps of a case.
ghost use Rattle.std.specs.Prelude.{◌≤◌, All, IfOk, IfSome, OnOk};
ghost use Rattle.cdxj_line.specs.Lines.{IsWritable};
ghost use Rattle.checkpoint.specs.Checkpoints.{AreLinesFor};
ghost use Rattle.disk_model.specs.Device.{reading_of};
ghost use Rattle.disk_model.specs.Image.{file_count};

use crate::told::Told;
use capture::{Failed, Memory};
use case_steps::{Absent, look};
use cdxj_line::{Line, put_line};
use checkpoint::{CheckpointFault, clear_unsealed, read_for, write_for};
use disk_model::{Disk, Kind, MemoryDisk};
use std::alloc::Global;

/// The lines of a volume's checkpoint, one behind the other.
pub fn read(alloc: Global, disk: &mut MemoryDisk, volume: u32) -> Result<Told, Memory> {
    match read_for(alloc, disk, volume) {
        Ok(Some(lines)) => texts_of(alloc, lines.as_slice()),
        Ok(None) => Ok(Told::NoCheckpoint),
        Err(CheckpointFault::DiskFault) => Ok(Told::DiskFault),
        Err(CheckpointFault::Memory) => Err(Memory),
    }
}

/// Writes the checkpoint of a volume that has this text, where it is one and the files before it are there.
pub fn write(
    alloc: Global,
    disk: &mut MemoryDisk,
    volume: u32,
    text: &[u8],
) -> Result<Told, Memory> {
    if let Err(absent) = reach_before(disk, volume) {
        return Ok(Told::Absent(absent));
    }
    let Some(lines) = lines_in(alloc, volume, text)? else {
        return Ok(Told::NoCheckpoint);
    };
    match write_for(alloc, disk, volume, lines.as_slice()) {
        Ok(()) => Ok(Told::Done),
        Err(CheckpointFault::DiskFault) => Ok(Told::DiskFault),
        Err(CheckpointFault::Memory) => Err(Memory),
    }
}

/// Takes away the checkpoints of volumes that aren't sealed.
pub fn clear(disk: &mut MemoryDisk) -> Told {
    match clear_unsealed(disk) {
        Ok(()) => Told::Done,
        Err(_) => Told::DiskFault,
    }
}

/// Whether the files of the checkpoints before a volume's are there. It counts no call.
fn reach_before(disk: &MemoryDisk, volume: u32) -> Result<(), Absent>
    ensures { OnOk result (volume ≤ file_count (reading_of disk.now) Kind.Cdxj) }
{
    if volume == 0 {
        return Ok(());
    }
    look(disk, Kind::Cdxj, volume - 1, 0)
}

/// The lines of a volume's checkpoint that has this text, as a disk of its own gives them.
fn lines_in(alloc: Global, volume: u32, text: &[u8]) -> Result<Option<Vec<Line>>, Memory>
    ensures { IfOk result (λ read. IfSome read (λ lines. AreLinesFor volume lines.items)) }
{
    let mut disk = MemoryDisk::new(alloc, Vec::new(alloc));
    if fill(&mut disk, volume, text).is_err() {
        return Err(Memory);
    }
    match read_for(alloc, &mut disk, volume) {
        Ok(lines) => Ok(lines),
        Err(_) => Err(Memory),
    }
}

/// Makes the files up to a volume's checkpoint, and writes this text there.
fn fill(disk: &mut MemoryDisk, volume: u32, text: &[u8]) -> Result<(), Failed> {
    for _ in 0..=volume {
        disk.create(Kind::Cdxj)?;
    }
    match look(disk, Kind::Cdxj, volume, 0) {
        Ok(()) => disk.write_at(Kind::Cdxj, volume, 0, text),
        Err(_) => Err(Failed),
    }
}

/// The texts of lines, one behind the other.
fn texts_of(alloc: Global, lines: &[Line]) -> Result<Told, Memory>
    requires { All IsWritable lines.now }
{
    let mut out = Vec::new(alloc);
    for line in lines {
        put_line(&mut out, line)?;
    }
    Ok(Told::Bytes(out))
}
