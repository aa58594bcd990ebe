//! A disk in memory one byte of which reads as another. It tells nothing of what it holds.
ghost use Rattle.std.specs.Prelude.{false};
ghost use Rattle.std.proofs.lemmas.Bool.{false≢true};
ghost use Rattle.capture.specs.Faults.{CountsFaults};
ghost use Rattle.disk_model.specs.Image.{no_files};

use capture::Failed;
use case_steps::{Change, reach};
use disk_model::{Disk, Kind, MemoryDisk};

/// A disk that passes each call on to a disk in memory, and changes what a read gives. It asks the inner disk whether the file and
/// the range are there, and fails where they aren't.
#[derive(Drop)]
pub struct AlteredDisk {
    inner: MemoryDisk,
    change: Change,
    faults: u64,
}

impl AlteredDisk {
    /// The disk, with this change.
    pub fn new(inner: MemoryDisk, change: Change) -> AlteredDisk {
        AlteredDisk {
            inner,
            change,
            faults: 0,
        }
    }

    /// Counts a failure.
    fn answer<T: Drop>(&mut self, answer: Result<T, Failed>) -> Result<T, Failed>
        ensures { CountsFaults self.old.faults self.new.faults result }
    {
        if answer.is_err() {
            self.faults = self.faults.saturating_add(1);
            return Err(Failed);
        }
        answer
    }
}

/// Changes the byte at the place, where the bytes that were read from `at` on hold it and it isn't kept any more.
fn alter(into: &mut [u8], at: u64, change: &mut Change) {
    let Some(place) = change.place.checked_sub(at) else {
        return;
    };
    let Some(byte) = into.get_mut(place as usize) else {
        return;
    };
    match change.kept_reads.checked_sub(1) {
        Some(left) => change.kept_reads = left,
        None => *byte = change.byte,
    }
}

impl Disk for AlteredDisk {
    ghost tells = { false };

    ghost reading = { λ _. no_files };

    ghost images = { λ _ _. ⊥ };

    ghost moment = { λ _. 0 };

    ghost images_since = { λ _ _ _. ⊥ };

    ghost faults = { λ d. d.faults };

    ghost reading_is_image = { λ d told. absurd (false≢true told) };

    ghost no_more_files = { λ d image kind left. absurd left };

    ghost now_counts = { λ d t image le left. absurd left };

    ghost now_only = { λ d image left. left };

    ghost earlier = { λ d t s image le left. left };

    fn files(&mut self, kind: Kind) -> Result<u32, Failed> {
        let answer = self.inner.files(kind);
        self.answer(answer)
    }

    fn create(&mut self, kind: Kind) -> Result<u32, Failed> {
        let answer = self.inner.create(kind);
        self.answer(answer)
    }

    fn len(&mut self, kind: Kind, file: u32) -> Result<u64, Failed> {
        if reach(&mut self.inner, kind, file, 0).is_err() {
            return self.answer(Err(Failed));
        }
        let answer = self.inner.len(kind, file);
        self.answer(answer)
    }

    fn read(&mut self, kind: Kind, file: u32, at: u64, into: &mut [u8]) -> Result<(), Failed> {
        let Some(end) = at.checked_add(into.len() as u64) else {
            return self.answer(Err(Failed));
        };
        if reach(&mut self.inner, kind, file, end).is_err() {
            return self.answer(Err(Failed));
        }
        let answer = self.inner.read(kind, file, at, into);
        if kind == Kind::Warc && file == self.change.file {
            alter(into, at, &mut self.change);
        }
        self.answer(answer)
    }

    fn write_at(&mut self, kind: Kind, file: u32, at: u64, bytes: &[u8]) -> Result<(), Failed> {
        if reach(&mut self.inner, kind, file, at).is_err() {
            return self.answer(Err(Failed));
        }
        let answer = self.inner.write_at(kind, file, at, bytes);
        self.answer(answer)
    }

    fn cut(&mut self, kind: Kind, file: u32, len: u64) -> Result<(), Failed> {
        if reach(&mut self.inner, kind, file, len).is_err() {
            return self.answer(Err(Failed));
        }
        let answer = self.inner.cut(kind, file, len);
        self.answer(answer)
    }

    fn sync(&mut self, kind: Kind, file: u32) -> Result<(), Failed> {
        if reach(&mut self.inner, kind, file, 0).is_err() {
            return self.answer(Err(Failed));
        }
        let answer = self.inner.sync(kind, file);
        self.answer(answer)
    }

    fn faults(&self) -> u64 {
        self.faults
    }
}
