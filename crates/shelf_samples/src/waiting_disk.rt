//! A disk that passes each call on to a disk in memory and logs it, and tells nothing. At its first read of the first capture it waits
//! for another thread.
ghost use Rattle.std.specs.Prelude.{◌≡◌, ◌<◌, ◌≤◌, false, length, OnOk};
ghost use Rattle.std.proofs.lemmas.Bool.{false≢true};
ghost use Rattle.capture.specs.Faults.{CountsFaults};
ghost use Rattle.disk_model.specs.Device.{reading_of};
ghost use Rattle.disk_model.specs.Image.{file_count, file_of, no_files};

use crate::meeting::Meeting;
use capture::Failed;
use disk_model::{Disk, Kind, MemoryDisk};
use std::alloc::Global;
use std::sync::Arc;

/// Where the groups of the first two captures begin, and where they end: behind a warcinfo of 311 bytes, each of 717 bytes.
const FIRST: u64 = 311;

const SECOND: u64 = 1_028;

const THIRD: u64 = 1_745;

/// What was done with the disk.
#[derive(Clone, Copy, PartialEq)]
enum Call {
    ReadFirst,
    ReadSecond,
    Wrote,
}

/// A disk that passes each call on to a disk in memory and logs it.
#[derive(Drop)]
pub struct WaitingDisk {
    rt: HostRuntime,
    meeting: Arc<Meeting>,
    inner: MemoryDisk,
    calls: Vec<Call>,
    has_waited: bool,
    faults: u64,
}

impl WaitingDisk {
    /// An empty disk, at whose first read of the first capture the thread waits for the other one.
    pub fn new(rt: HostRuntime, alloc: Global, meeting: Arc<Meeting>) -> WaitingDisk {
        WaitingDisk {
            rt,
            meeting,
            inner: MemoryDisk::new(alloc, Vec::new(alloc)),
            calls: Vec::new(alloc),
            has_waited: false,
            faults: 0,
        }
    }

    /// Whether, from the first read of the first capture on, the second one was read behind the last read of the first and before the
    /// first write.
    pub fn was_asked_between(&self) -> bool {
        let calls = self.calls.as_slice();
        let Some(start) = calls.iter().position(|call| *call == Call::ReadFirst) else {
            return false;
        };
        let Some(calls) = calls.get(start..) else {
            return false;
        };
        let Some(read) = calls.iter().rposition(|call| *call == Call::ReadFirst) else {
            return false;
        };
        match calls.iter().position(|call| *call == Call::Wrote) {
            Some(write) => read + 1 < write,
            None => false,
        }
    }

    /// Logs a call. Where there is no memory for that, nothing is logged any more.
    fn log(&mut self, call: Call)
        ensures { self.new.faults ≡ self.old.faults }
    {
        let _logged = self.calls.push(call).is_ok();
    }

    /// Logs a read from this place on.
    fn log_read(&mut self, at: u64)
        ensures { self.new.faults ≡ self.old.faults }
    {
        if at < FIRST {
            return;
        }
        if at < SECOND {
            self.log(Call::ReadFirst);
            self.wait();
            return;
        }
        if at < THIRD {
            self.log(Call::ReadSecond);
        }
    }

    /// Waits for the other thread, where it hasn't done so yet.
    fn wait(&mut self)
        ensures { self.new.faults ≡ self.old.faults }
    {
        if self.has_waited {
            return;
        }
        self.has_waited = true;
        self.meeting.read(&self.rt);
    }

    /// Counts a failure.
    fn answer<T: Drop>(&mut self, answer: Result<T, Failed>) -> Result<T, Failed>
        ensures { CountsFaults self.old.faults self.new.faults result }
    {
        if answer.is_err() {
            self.faults = self.faults.saturating_add(1);
            return Err(Failed);
        }
        answer
    }
}

/// Whether the disk has the file, and its bytes up to this place.
fn reach(disk: &MemoryDisk, kind: Kind, file: u32, end: u64) -> Result<(), Failed>
    ensures there { OnOk result (file < file_count (reading_of disk.now) kind) }
    ensures in_range { OnOk result (end ≤ length (file_of (reading_of disk.now) kind file)) }
{
    match disk.file_len(kind, file) {
        Some(len) if end <= len => Ok(()),
        _ => Err(Failed),
    }
}

impl Disk for WaitingDisk {
    ghost tells = { false };

    ghost reading = { λ _. no_files };

    ghost images = { λ _ _. ⊥ };

    ghost moment = { λ _. 0 };

    ghost images_since = { λ _ _ _. ⊥ };

    ghost faults = { λ d. d.faults };

    ghost reading_is_image = { λ d told. absurd (false≢true told) };

    ghost no_more_files = { λ d image kind left. absurd left };

    ghost now_counts = { λ d t image le left. absurd left };

    ghost now_only = { λ d image left. left };

    ghost earlier = { λ d t s image le left. left };

    fn files(&mut self, kind: Kind) -> Result<u32, Failed> {
        let answer = self.inner.files(kind);
        self.answer(answer)
    }

    fn create(&mut self, kind: Kind) -> Result<u32, Failed> {
        let answer = self.inner.create(kind);
        self.answer(answer)
    }

    fn len(&mut self, kind: Kind, file: u32) -> Result<u64, Failed> {
        if reach(&self.inner, kind, file, 0).is_err() {
            return self.answer(Err(Failed));
        }
        let answer = self.inner.len(kind, file);
        self.answer(answer)
    }

    fn read(&mut self, kind: Kind, file: u32, at: u64, into: &mut [u8]) -> Result<(), Failed> {
        self.log_read(at);
        let Some(end) = at.checked_add(into.len() as u64) else {
            return self.answer(Err(Failed));
        };
        if reach(&self.inner, kind, file, end).is_err() {
            return self.answer(Err(Failed));
        }
        let answer = self.inner.read(kind, file, at, into);
        self.answer(answer)
    }

    fn write_at(&mut self, kind: Kind, file: u32, at: u64, bytes: &[u8]) -> Result<(), Failed> {
        self.log(Call::Wrote);
        if reach(&self.inner, kind, file, at).is_err() {
            return self.answer(Err(Failed));
        }
        let answer = self.inner.write_at(kind, file, at, bytes);
        self.answer(answer)
    }

    fn cut(&mut self, kind: Kind, file: u32, len: u64) -> Result<(), Failed> {
        if reach(&self.inner, kind, file, len).is_err() {
            return self.answer(Err(Failed));
        }
        let answer = self.inner.cut(kind, file, len);
        self.answer(answer)
    }

    fn sync(&mut self, kind: Kind, file: u32) -> Result<(), Failed> {
        if reach(&self.inner, kind, file, 0).is_err() {
            return self.answer(Err(Failed));
        }
        let answer = self.inner.sync(kind, file);
        self.answer(answer)
    }

    fn faults(&self) -> u64 {
        self.faults
    }
}
