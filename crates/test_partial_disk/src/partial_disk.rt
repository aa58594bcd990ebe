//! A disk for tests, whose failed calls act in part, and which can be stopped. It tells nothing.
ghost use Rattle.std.specs.Prelude.{◌≡◌, false};
ghost use Rattle.std.proofs.lemmas.Bool.{false≢true};
ghost use Rattle.capture.specs.Faults.{CountsFaults};
ghost use Rattle.disk_model.specs.Image.{no_files};

use capture::Failed;
use disk_model::{Disk, Kind};
use std::alloc::{AllocError, Global};

/// A file: what a read gives, what was there at the last sync that succeeded, and whether a stop leaves it there.
#[derive(Drop)]
struct PartialFile {
    bytes: Vec<u8>,
    synced: Vec<u8>,
    is_durable: bool,
}

impl PartialFile {
    /// A file that holds these bytes, durably.
    fn of(alloc: Global, bytes: &[u8]) -> Result<PartialFile, AllocError> {
        Ok(PartialFile {
            bytes: Vec::from_slice(alloc, bytes)?,
            synced: Vec::from_slice(alloc, bytes)?,
            is_durable: true,
        })
    }

    /// What a stop leaves of it: at 0 what was synced, at 1 what a read gives. At n above 1 n - 2 bytes more than were
    /// synced, and a `W` where more was written; or n - 2 bytes fewer, where it was cut; or the bytes of either.
    fn left(&self, alloc: Global, choice: usize) -> Result<Vec<u8>, AllocError> {
        let (now, synced) = (self.bytes.as_slice(), self.synced.as_slice());
        let some = choice.saturating_sub(2);
        if choice == 0 {
            Vec::from_slice(alloc, synced)
        } else if choice == 1 || now.len() == synced.len() {
            Vec::from_slice(alloc, if choice % 2 == 0 { synced } else { now })
        } else if now.len() < synced.len() {
            let (front, _) = split(synced, now.len().max(synced.len() - some.min(synced.len())));
            Vec::from_slice(alloc, front)
        } else {
            let (front, rest) = split(now, synced.len().saturating_add(some));
            let mut bytes = Vec::from_slice(alloc, front)?;
            if !rest.is_empty() {
                bytes.push(b'W')?;
            }
            Ok(bytes)
        }
    }
}

/// The bytes before a place and from it on; none behind the end.
fn split(bytes: &[u8], at: usize) -> (&[u8], &[u8]) {
    bytes.split_at(at.min(bytes.len()))
}

/// A disk of files of one kind. The calls of two numbers fail, counted from 0: a write then puts the first half of its
/// bytes there, a single one wholly, a cut takes half of what it was to take, and a file is made that a stop may lose. A
/// read or a sync that fails does nothing. Each call for the other kind fails.
#[derive(Drop)]
pub struct PartialDisk {
    alloc: Global,
    kind: Kind,
    files: Vec<PartialFile>,
    calls: u64,
    fails: (u64, u64),
    faults: u64,
}

impl PartialDisk {
    /// A disk without files, whose calls of these numbers fail.
    pub fn new(alloc: Global, kind: Kind, fails: (u64, u64)) -> PartialDisk {
        PartialDisk {
            alloc,
            kind,
            files: Vec::new(alloc),
            calls: 0,
            fails,
            faults: 0,
        }
    }

    /// Adds a file with these bytes, which is synced.
    pub fn add(&mut self, bytes: &[u8]) -> Result<(), AllocError> {
        self.files.push(PartialFile::of(self.alloc, bytes)?)?;
        Ok(())
    }

    /// The disk that a stop leaves, none of whose calls fails.
    pub fn stopped(&self, choice: usize) -> Result<PartialDisk, AllocError> {
        let mut disk = PartialDisk::new(self.alloc, self.kind, (u64::MAX, u64::MAX));
        for file in self.files.iter() {
            if file.is_durable || choice % 2 == 1 {
                disk.add(file.left(self.alloc, choice)?.as_slice())?;
            }
        }
        Ok(disk)
    }

    /// How many files there are.
    pub fn count(&self) -> usize {
        self.files.len()
    }

    /// What a read gives of a file; nothing where it isn't there.
    pub fn bytes(&self, file: usize) -> &[u8] {
        match self.files.get(file) {
            Some(file) => file.bytes.as_slice(),
            None => &[],
        }
    }

    /// What was there in a file at the last sync that succeeded; nothing where it isn't there.
    pub fn synced(&self, file: usize) -> &[u8] {
        match self.files.get(file) {
            Some(file) => file.synced.as_slice(),
            None => &[],
        }
    }

    /// How many calls were made.
    pub fn calls(&self) -> u64 {
        self.calls
    }

    /// Counts a call, and answers whether it is one that fails.
    fn is_failing(&mut self, kind: Kind) -> bool
        ensures { self.new.faults ≡ self.old.faults }
    {
        let number = self.calls;
        self.calls = number.saturating_add(1);
        number == self.fails.0 || number == self.fails.1 || kind != self.kind
    }

    /// Counts a failure where there is no answer, or where the call is one that fails.
    fn answer<T: Drop>(&mut self, fails: bool, answer: Option<T>) -> Result<T, Failed>
        ensures { CountsFaults self.old.faults self.new.faults result }
    {
        match answer {
            Some(value) if !fails => Ok(value),
            _ => {
                self.faults = self.faults.saturating_add(1);
                Err(Failed)
            }
        }
    }
}

/// How many files there are. `None` where their number has no 32 bits.
fn count_of(files: &[PartialFile]) -> Option<u32> {
    u32::try_from(files.len()).ok()
}

/// Makes a file, which a stop may lose where the call fails.
fn make(alloc: Global, files: &mut Vec<PartialFile>, fails: bool) -> Option<u32> {
    let number = count_of(files.as_slice())?;
    let mut file = PartialFile::of(alloc, &[]).ok()?;
    file.is_durable = !fails;
    files.push(file).ok()?;
    Some(number)
}

/// The length of a file. `None` where it isn't there.
fn len_of(files: &[PartialFile], file: u32) -> Option<u64> {
    let file = files.get(file as usize)?;
    Some(file.bytes.len() as u64)
}

/// Fills `into` from an offset of a file on. `None` where the file doesn't reach so far.
fn read_from(files: &[PartialFile], file: u32, at: u64, into: &mut [u8]) -> Option<()> {
    let file = files.get(file as usize)?;
    let (_, rest) = file.bytes.as_slice().split_at_checked(at as usize)?;
    let (part, _) = rest.split_at_checked(into.len())?;
    into.copy_from_slice(part);
    Some(())
}

/// Writes bytes at an offset, over what is there and past the end. `None` where there is a gap before it, or no memory.
fn write_to(to: &mut Vec<u8>, at: u64, bytes: &[u8]) -> Option<()> {
    let place = at as usize;
    if place > to.len() {
        return None;
    }
    let over = bytes.len().min(to.len() - place);
    let (front, past) = bytes.split_at(over);
    to.extend_from_slice(past).ok()?;
    let end = place + over;
    to[place..end].copy_from_slice(front);
    Some(())
}

/// Writes into a file. `None` where that can't be done.
fn write_file(files: &mut Vec<PartialFile>, file: u32, at: u64, bytes: &[u8]) -> Option<()> {
    let file = files.get_mut(file as usize)?;
    write_to(&mut file.bytes, at, bytes)
}

/// Cuts a file to a length, or in part where it is to fail. `None` where that can't be done.
fn cut_file(files: &mut Vec<PartialFile>, file: u32, len: u64, fails: bool) -> Option<()> {
    let file = files.get_mut(file as usize)?;
    let past = file.bytes.len().saturating_sub(len as usize);
    let part = if fails { past / 2 } else { past };
    let left = file.bytes.len() - part;
    file.bytes.truncate(left);
    Some(())
}

/// Makes a file durable. `None` where it isn't there.
fn sync_file(files: &mut Vec<PartialFile>, file: u32) -> Option<()> {
    let file = files.get_mut(file as usize)?;
    file.synced.clear();
    file.synced.extend_from_slice(file.bytes.as_slice()).ok()?;
    file.is_durable = true;
    Some(())
}

impl Disk for PartialDisk {
    ghost tells = { false };

    ghost reading = { λ _. no_files };

    ghost images = { λ _ _. ⊥ };

    ghost moment = { λ _. 0 };

    ghost images_since = { λ _ _ _. ⊥ };

    ghost faults = { λ d. d.faults };

    ghost reading_is_image = { λ d told. absurd (false≢true told) };

    ghost no_more_files = { λ d image kind left. absurd left };

    ghost now_counts = { λ d t image le left. absurd left };

    ghost now_only = { λ d image left. left };

    ghost earlier = { λ d t s image le left. left };

    fn files(&mut self, kind: Kind) -> Result<u32, Failed> {
        let fails = self.is_failing(kind);
        let count = count_of(self.files.as_slice());
        self.answer(fails, count)
    }

    fn create(&mut self, kind: Kind) -> Result<u32, Failed> {
        let fails = self.is_failing(kind);
        let made = make(self.alloc, &mut self.files, fails);
        self.answer(fails, made)
    }

    fn len(&mut self, kind: Kind, file: u32) -> Result<u64, Failed> {
        let fails = self.is_failing(kind);
        let len = len_of(self.files.as_slice(), file);
        self.answer(fails, len)
    }

    fn read(&mut self, kind: Kind, file: u32, at: u64, into: &mut [u8]) -> Result<(), Failed> {
        let fails = self.is_failing(kind);
        let done = read_from(self.files.as_slice(), file, at, into);
        self.answer(fails, done)
    }

    fn write_at(&mut self, kind: Kind, file: u32, at: u64, bytes: &[u8]) -> Result<(), Failed> {
        let fails = self.is_failing(kind);
        let part = if fails {
            bytes.len().div_ceil(2)
        } else {
            bytes.len()
        };
        let done = write_file(&mut self.files, file, at, &bytes[..part]);
        self.answer(fails, done)
    }

    fn cut(&mut self, kind: Kind, file: u32, len: u64) -> Result<(), Failed> {
        let fails = self.is_failing(kind);
        let done = cut_file(&mut self.files, file, len, fails);
        self.answer(fails, done)
    }

    fn sync(&mut self, kind: Kind, file: u32) -> Result<(), Failed> {
        let fails = self.is_failing(kind);
        if fails {
            return self.answer(fails, Some(()));
        }
        let done = sync_file(&mut self.files, file);
        self.answer(fails, done)
    }

    fn faults(&self) -> u64 {
        self.faults
    }
}
