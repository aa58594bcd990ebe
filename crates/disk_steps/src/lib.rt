//! Calls of the program's disk, as rows of tests list them.
#![tactic(auto)]

use disk_model::{Disk, Kind};
use outside::Failed;
use real_outside::{RealDisk, SilentFolders};

/// One call of a disk.
#[derive(Clone, Copy)]
pub enum Step {
    /// How many files there are.
    Files(Kind),
    /// Makes a file.
    Create(Kind),
    /// How long a file is.
    Len(Kind, u32),
    /// At most five bytes from a place on, which are these.
    Read(Kind, u32, u64, &'static [u8]),
    /// These bytes from a place on.
    Write(Kind, u32, u64, &'static [u8]),
    /// To so many bytes.
    Cut(Kind, u32, u64),
    /// Waits until a file is on the disk.
    Sync(Kind, u32),
    /// How many calls failed.
    Faults,
}

/// Takes one step, and answers its number, or 0 where it has none.
pub fn taken<R: SilentFolders + Drop>(disk: &mut RealDisk<R>, step: Step) -> Result<usize, Failed>
where
    R::Folder: Drop,
{
    match step {
        Step::Files(kind) => number(disk.files(kind)),
        Step::Create(kind) => number(disk.create(kind)),
        Step::Len(kind, file) => match disk.len(kind, file) {
            Ok(len) => Ok(len as usize),
            Err(_) => Err(Failed),
        },
        Step::Read(kind, file, at, want) => read(disk, kind, file, at, want),
        Step::Write(kind, file, at, bytes) => done(disk.write_at(kind, file, at, bytes)),
        Step::Cut(kind, file, len) => done(disk.cut(kind, file, len)),
        Step::Sync(kind, file) => done(disk.sync(kind, file)),
        Step::Faults => Ok(disk.faults() as usize),
    }
}

/// A number of files.
fn number(answer: Result<u32, Failed>) -> Result<usize, Failed> {
    match answer {
        Ok(number) => Ok(number as usize),
        Err(_) => Err(Failed),
    }
}

/// 0, for a call that tells no number.
fn done(answer: Result<(), Failed>) -> Result<usize, Failed> {
    match answer {
        Ok(()) => Ok(0),
        Err(_) => Err(Failed),
    }
}

/// What a read from a place on answers: 0 where the bytes are these, and 1 where they are others.
fn read<R: SilentFolders + Drop>(
    disk: &mut RealDisk<R>,
    kind: Kind,
    file: u32,
    at: u64,
    want: &[u8],
) -> Result<usize, Failed>
where
    R::Folder: Drop,
{
    let mut into = [0u8; 5];
    let Some(into) = into.get_mut(..want.len()) else {
        return Err(Failed);
    };
    match disk.read(kind, file, at, into) {
        Ok(()) => Ok(usize::from(&*into != want)),
        Err(_) => Err(Failed),
    }
}
