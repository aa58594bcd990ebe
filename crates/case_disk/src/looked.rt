//! Calls of a disk in memory. Of each it is asked first whether the file and the range are there, which the disk doesn't count, so
//! that it counts what a case does and nothing else.
use crate::told::Told;
use capture::{Failed, Memory};
use case_steps::{Absent, look};
use disk_model::{Disk, Kind, MemoryDisk};
use std::alloc::Global;

/// How many calls, reads and faults the disk counted, and how many bytes its files of each kind have.
pub fn counts(alloc: Global, disk: &MemoryDisk) -> Result<Told, Memory> {
    let (calls, reads, faults) = (disk.calls(), disk.reads(), disk.faults());
    let (warc, cdxj) = (disk.byte_sum(Kind::Warc), disk.byte_sum(Kind::Cdxj));
    let text = format!(in alloc;
        "calls {calls} reads {reads} faults {faults} warc {warc} cdxj {cdxj}"
    )?;
    Ok(Told::Bytes(text.into_bytes()))
}

/// How many files of a kind there are.
pub fn files(disk: &mut MemoryDisk, kind: Kind) -> Told {
    match disk.files(kind) {
        Ok(count) => Told::Number(u64::from(count)),
        Err(Failed) => Told::DiskFault,
    }
}

/// Makes an empty file, and tells its number.
pub fn create(disk: &mut MemoryDisk, kind: Kind) -> Told {
    match disk.create(kind) {
        Ok(file) => Told::Number(u64::from(file)),
        Err(Failed) => Told::DiskFault,
    }
}

/// How long a file is, in bytes.
pub fn len(disk: &mut MemoryDisk, kind: Kind, file: u32) -> Told {
    if let Err(absent) = look(disk, kind, file, 0) {
        return Told::Absent(absent);
    }
    match disk.len(kind, file) {
        Ok(len) => Told::Number(len),
        Err(Failed) => Told::DiskFault,
    }
}

/// So many bytes of a file from a place on.
pub fn read(
    alloc: Global,
    disk: &mut MemoryDisk,
    kind: Kind,
    file: u32,
    at: u64,
    len: u64,
) -> Result<Told, Memory> {
    let Some(end) = at.checked_add(len) else {
        return Ok(Told::Absent(Absent::Range));
    };
    if let Err(absent) = look(disk, kind, file, end) {
        return Ok(Told::Absent(absent));
    }
    let mut bytes = vec![in alloc; 0u8; len as usize]?;
    match disk.read(kind, file, at, bytes.as_mut_slice()) {
        Ok(()) => Ok(Told::Bytes(bytes)),
        Err(Failed) => Ok(Told::DiskFault),
    }
}

/// Writes bytes into a file at a place.
pub fn write(disk: &mut MemoryDisk, kind: Kind, file: u32, at: u64, bytes: &[u8]) -> Told {
    if let Err(absent) = look(disk, kind, file, at) {
        return Told::Absent(absent);
    }
    match disk.write_at(kind, file, at, bytes) {
        Ok(()) => Told::Done,
        Err(Failed) => Told::DiskFault,
    }
}

/// Cuts a file to a length.
pub fn cut(disk: &mut MemoryDisk, kind: Kind, file: u32, len: u64) -> Told {
    if let Err(absent) = look(disk, kind, file, len) {
        return Told::Absent(absent);
    }
    match disk.cut(kind, file, len) {
        Ok(()) => Told::Done,
        Err(Failed) => Told::DiskFault,
    }
}

/// Makes a file durable.
pub fn sync(disk: &mut MemoryDisk, kind: Kind, file: u32) -> Told {
    if let Err(absent) = look(disk, kind, file, 0) {
        return Told::Absent(absent);
    }
    match disk.sync(kind, file) {
        Ok(()) => Told::Done,
        Err(Failed) => Told::DiskFault,
    }
}
