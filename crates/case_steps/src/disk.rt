//! The disk in memory that a case is played over.
use capture::Failed;
use disk_model::{Disk, Kind, MemoryDisk};
use std::alloc::{AllocError, Global};

/// What stands on a disk, and which of its calls are to fail.
#[derive(Clone, Copy)]
pub struct DiskSetting<'a> {
    /// The volumes that stand on the disk.
    pub volumes: &'a [Vec<u8>],
    /// The checkpoints that stand there, of the first volumes.
    pub checkpoints: &'a [Vec<u8>],
    /// The numbers of the calls that are to fail, from 0.
    pub fails: &'a [u64],
    /// How many calls pass before each of them fails.
    pub fuse: Option<u64>,
    /// Whether a `create` that is to fail leaves its file half made.
    pub half_makes: bool,
}

/// How many calls of the disk it takes to make a file that holds a text.
const CALLS: u64 = 3;

/// The disk on which the volumes and checkpoints stand, durably. Its calls are numbered from 0 behind that.
pub fn disk_of(
    alloc: Global,
    setting: DiskSetting,
) -> Result<Result<MemoryDisk, Failed>, AllocError> {
    let mut disk = MemoryDisk::new(alloc, behind_files(alloc, setting)?);
    for text in setting.volumes {
        if put_file(&mut disk, Kind::Warc, text.as_slice()).is_err() {
            return Ok(Err(Failed));
        }
    }
    for text in setting.checkpoints {
        if put_file(&mut disk, Kind::Cdxj, text.as_slice()).is_err() {
            return Ok(Err(Failed));
        }
    }
    Ok(Ok(set(disk, setting)))
}

/// The disk with the fuse of the setting, and its way of failing.
fn set(disk: MemoryDisk, setting: DiskSetting) -> MemoryDisk {
    let disk = match setting.fuse {
        Some(calls) => disk.fused(calls),
        None => disk,
    };
    if setting.half_makes {
        return disk.with_half_made_files();
    }
    disk
}

/// The numbers of the calls that are to fail, counted from the first by which the files are put.
fn behind_files(alloc: Global, setting: DiskSetting) -> Result<Vec<u64>, AllocError> {
    let checkpoints = setting.checkpoints.len() as u64;
    let files = checkpoints.saturating_add(setting.volumes.len() as u64);
    let made = CALLS.saturating_mul(files);
    let mut fails = Vec::new(alloc);
    for number in setting.fails {
        fails.push(number.saturating_add(made))?;
    }
    Ok(fails)
}

/// Puts a file of this kind, by `CALLS` calls.
#[tactic(auto, using(crate::proofs::FileLaws::is_there, crate::proofs::FileLaws::still_there))]
fn put_file<D: Disk>(disk: &mut D, kind: Kind, text: &[u8]) -> Result<(), Failed> {
    let file = disk.create(kind)?;
    disk.write_at(kind, file, 0, text)?;
    disk.sync(kind, file)
}
