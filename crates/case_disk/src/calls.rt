//! Calls of a disk in memory, one by one, and what its files hold behind them.
use crate::call::Call;
use crate::told::Told;
use crate::{checkpoints, looked, verdicts};
use capture::Memory;
use case_steps::{Absent, Deed, Outcome, after, kept};
use disk_model::{Kind, MemoryDisk};
use std::alloc::Global;
use std::thread::Threads;

/// What each call tells, and the files that a stop by this choice leaves behind them. A step `stop` without a number stops by it
/// too. `None` where a step is none, or the disk could not be stopped.
pub fn outcome_of_calls<R: Threads + Sync>(
    rt: &R,
    alloc: Global,
    disk: MemoryDisk,
    steps: &[Deed],
    choice: u32,
) -> Result<Option<Outcome>, Memory> {
    let mut outcome = Outcome::new(alloc);
    let caller = Caller { rt, choice };
    let behind = caller.behind(alloc, &mut outcome, disk, steps);
    let done = put_left(alloc, &mut outcome, behind, choice);
    kept(outcome, done)
}

/// Makes the calls of a disk, and stops it by this choice where a step names none.
#[derive(Drop)]
struct Caller<'a, R> {
    rt: &'a R,
    choice: u32,
}

impl<'a, R: Threads + Sync> Caller<'a, R> {
    /// The disk behind the steps that are due. `None` where one is none.
    fn behind(
        &self,
        alloc: Global,
        outcome: &mut Outcome,
        first: MemoryDisk,
        steps: &[Deed],
    ) -> Result<Option<MemoryDisk>, Memory> {
        let mut disk = first;
        for step in steps {
            if !step.is_due(outcome) {
                continue;
            }
            disk = match self.step(alloc, outcome, disk, step)? {
                Some(disk) => disk,
                None => return Ok(None),
            };
        }
        Ok(Some(disk))
    }

    /// Does a step, and puts what it answers. `None` where it is none.
    fn step(
        &self,
        alloc: Global,
        outcome: &mut Outcome,
        disk: MemoryDisk,
        step: &Deed,
    ) -> Result<Option<MemoryDisk>, Memory> {
        match Call::of(step.name, step.text.as_slice()) {
            Some(Call::Fuse(calls)) => Ok(Some(disk.fused(calls))),
            Some(Call::HalfMake) => Ok(Some(disk.with_half_made_files())),
            Some(Call::Stop(named)) => Ok(stopped(disk, named.unwrap_or(self.choice))),
            Some(call) => called(self.rt, alloc, outcome, disk, call),
            None => Ok(None),
        }
    }
}

/// Puts the files that a stop by this choice leaves. Whether there is a disk, and it could be stopped.
fn put_left(
    alloc: Global,
    outcome: &mut Outcome,
    behind: Result<Option<MemoryDisk>, Memory>,
    choice: u32,
) -> Result<bool, Memory> {
    let Some(disk) = behind? else {
        return Ok(false);
    };
    match stopped(disk, choice) {
        Some(left) => put_texts(alloc, outcome, left),
        None => Ok(false),
    }
}

fn put_texts(alloc: Global, outcome: &mut Outcome, mut disk: MemoryDisk) -> Result<bool, Memory> {
    let done = outcome.put_texts(alloc, &mut disk);
    after(done, true)
}

/// The disk behind a call, of which it is put what it answers.
fn called<R: Threads + Sync>(
    rt: &R,
    alloc: Global,
    outcome: &mut Outcome,
    mut disk: MemoryDisk,
    call: Call,
) -> Result<Option<MemoryDisk>, Memory> {
    let done = put_answer(alloc, outcome, told(rt, alloc, &mut disk, call));
    after(done, Some(disk))
}

fn put_answer(
    alloc: Global,
    outcome: &mut Outcome,
    told: Result<Told, Memory>,
) -> Result<(), Memory> {
    told?.put(alloc, outcome)
}

/// Makes a call, and says what it tells.
fn told<R: Threads + Sync>(
    rt: &R,
    alloc: Global,
    disk: &mut MemoryDisk,
    call: Call,
) -> Result<Told, Memory> {
    match call {
        Call::Files(kind) => Ok(looked::files(disk, kind)),
        Call::Create(kind) => Ok(looked::create(disk, kind)),
        Call::Put(kind, text) => Ok(put(disk, kind, text)),
        Call::Len(kind, file) => Ok(looked::len(disk, kind, file)),
        Call::Sync(kind, file) => Ok(looked::sync(disk, kind, file)),
        Call::Cut(kind, file, len) => Ok(looked::cut(disk, kind, file, len)),
        Call::Read(kind, file, at, len) => looked::read(alloc, disk, kind, file, at, len),
        Call::Write(kind, file, at, bytes) => Ok(looked::write(disk, kind, file, at, bytes)),
        Call::WriteEach(kind, file, at, bytes) => Ok(write_each(disk, kind, file, at, bytes)),
        Call::ClearUnsealed => Ok(checkpoints::clear(disk)),
        Call::ReadCheckpoint(volume) => checkpoints::read(alloc, disk, volume),
        Call::WriteCheckpoint(volume, text) => checkpoints::write(alloc, disk, volume, text),
        Call::Verify(due) => verdicts::verify(rt, alloc, disk, due),
        Call::Counts => looked::counts(alloc, disk),
        Call::Fuse(_) => Ok(Told::Nothing),
        Call::HalfMake => Ok(Told::Nothing),
        Call::Stop(_) => Ok(Told::Nothing),
    }
}

/// Makes a file that holds the text, durably.
fn put(disk: &mut MemoryDisk, kind: Kind, text: &[u8]) -> Told {
    match looked::create(disk, kind) {
        Told::Number(file) => filled(disk, kind, file, text),
        told => told,
    }
}

/// Writes and syncs an empty file.
fn filled(disk: &mut MemoryDisk, kind: Kind, file: u64, text: &[u8]) -> Told {
    let Ok(file) = u32::try_from(file) else {
        return Told::Absent(Absent::File);
    };
    match looked::write(disk, kind, file, 0, text) {
        Told::Done => looked::sync(disk, kind, file),
        told => told,
    }
}

/// Writes each byte by a call of its own, up to the first that isn't done.
fn write_each(disk: &mut MemoryDisk, kind: Kind, file: u32, at: u64, bytes: &[u8]) -> Told {
    let mut place = at;
    for byte in bytes {
        match looked::write(disk, kind, file, place, &[*byte]) {
            Told::Done => (),
            told => return told,
        }
        place = place.saturating_add(1);
    }
    Told::Done
}

/// What a stop by this choice leaves. `None` where the disk could not be stopped.
fn stopped(disk: MemoryDisk, choice: u32) -> Option<MemoryDisk> {
    match disk.stop(choice) {
        Ok(left) => Some(left),
        Err(_) => None,
    }
}
