//! A step that lets the file of a volume's checkpoint hold any text.
use capture::Failed;
use case_language::TextWords;
use case_steps::reach;
use disk_model::{Disk, Kind, MemoryDisk};

/// The number of a checkpoint's file, and behind a space its text.
pub fn checkpoint_in(text: &[u8]) -> Option<(u32, &[u8])> {
    let mut words = TextWords::of(text);
    match words.small_number() {
        Some(file) => Some((file, words.rest)),
        None => None,
    }
}

/// Lets a checkpoint's file hold this text alone, durably. The file is made where it is the next one.
pub fn put_checkpoint(disk: &mut MemoryDisk, file: u32, text: &[u8]) -> Result<(), Failed> {
    if disk.files(Kind::Cdxj)? == file {
        disk.create(Kind::Cdxj)?;
    }
    empty(disk, file)?;
    fill(disk, file, text)?;
    sync(disk, file)
}

fn empty(disk: &mut MemoryDisk, file: u32) -> Result<(), Failed> {
    match reach(disk, Kind::Cdxj, file, 0) {
        Ok(()) => disk.cut(Kind::Cdxj, file, 0),
        Err(_) => Err(Failed),
    }
}

fn fill(disk: &mut MemoryDisk, file: u32, text: &[u8]) -> Result<(), Failed> {
    match reach(disk, Kind::Cdxj, file, 0) {
        Ok(()) => disk.write_at(Kind::Cdxj, file, 0, text),
        Err(_) => Err(Failed),
    }
}

fn sync(disk: &mut MemoryDisk, file: u32) -> Result<(), Failed> {
    match reach(disk, Kind::Cdxj, file, 0) {
        Ok(()) => disk.sync(Kind::Cdxj, file),
        Err(_) => Err(Failed),
    }
}
