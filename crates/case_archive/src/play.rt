//! Plays the steps of a case.
use crate::altered::AlteredDisk;
use crate::checkpoints::{checkpoint_in, put_checkpoint};
use crate::depths::opened_by_both;
use crate::looking::{stored_after, timed_in};
use archive_core::Archive;
use capture::Memory;
use case_language::number_in;
use case_steps::{Change, Deed, Outcome, Player, after, none_of, outcome_of_steps};
use case_stores::{Held, do_step, opening_in, put_closed};
use disk_model::MemoryDisk;
use std::alloc::Global;

/// What each step tells, over a disk that can be stopped. A step `stop` without a number stops by this choice. `None` where a step is
/// none, or the disk could not be stopped.
pub fn outcome_of(
    alloc: Global,
    disk: MemoryDisk,
    steps: &[Deed],
    choice: u32,
) -> Result<Option<Outcome>, Memory> {
    outcome_of_steps(alloc, &mut Stopping { choice }, Held::Disk(disk), steps)
}

/// What each step tells, over a disk one byte of which reads as another.
pub fn altered_outcome_of(
    alloc: Global,
    disk: MemoryDisk,
    change: Change,
    steps: &[Deed],
) -> Result<Option<Outcome>, Memory> {
    let altered = Held::Disk(AlteredDisk::new(disk, change));
    outcome_of_steps(alloc, &mut Altering, altered, steps)
}

/// Does steps over a disk that can be stopped, by this choice where a step names none.
#[derive(Clone, Copy)]
struct Stopping {
    choice: u32,
}

impl Player for Stopping {
    type Held = Held<MemoryDisk>;

    fn step(
        &mut self,
        alloc: Global,
        outcome: &mut Outcome,
        held: Held<MemoryDisk>,
        step: &Deed,
    ) -> Result<Option<Held<MemoryDisk>>, Memory> {
        let text = step.text.as_slice();
        match step.name {
            "stop" => Ok(stopped(held, step.choice(self.choice))),
            "fuse" => Ok(fused(held, text)),
            "files" => shown(alloc, outcome, held),
            "checkpoint" => Ok(checkpointed(held, text)),
            "open-both" => opened_twice(alloc, outcome, held, text),
            "store-after" => looked_and_stored(alloc, outcome, held, text),
            _ => do_step(alloc, outcome, held, step),
        }
    }
}

/// Does steps over a disk one byte of which reads as another.
#[derive(Clone, Copy)]
struct Altering;

impl Player for Altering {
    type Held = Held<AlteredDisk>;

    fn step(
        &mut self,
        alloc: Global,
        outcome: &mut Outcome,
        held: Held<AlteredDisk>,
        step: &Deed,
    ) -> Result<Option<Held<AlteredDisk>>, Memory> {
        do_step(alloc, outcome, held, step)
    }
}

/// Stops the disk by a choice, where the step names one.
fn stopped(held: Held<MemoryDisk>, choice: Option<u32>) -> Option<Held<MemoryDisk>> {
    match choice {
        Some(choice) => stopped_by(held.closed(), choice),
        None => none_of(held),
    }
}

fn stopped_by(disk: MemoryDisk, choice: u32) -> Option<Held<MemoryDisk>> {
    match disk.stop(choice) {
        Ok(left) => Some(Held::Disk(left)),
        Err(_) => None,
    }
}

/// Lets so many further calls of the disk pass, and each behind them fail.
fn fused(held: Held<MemoryDisk>, text: &[u8]) -> Option<Held<MemoryDisk>> {
    match number_in(text) {
        Some(calls) => Some(held.fused(calls)),
        None => none_of(held),
    }
}

/// Lets a checkpoint's file hold a text.
fn checkpointed(held: Held<MemoryDisk>, text: &[u8]) -> Option<Held<MemoryDisk>> {
    match checkpoint_in(text) {
        Some((file, text)) => with_checkpoint(held.closed(), file, text),
        None => none_of(held),
    }
}

fn with_checkpoint(mut disk: MemoryDisk, file: u32, text: &[u8]) -> Option<Held<MemoryDisk>> {
    match put_checkpoint(&mut disk, file, text) {
        Ok(()) => Some(Held::Disk(disk)),
        Err(_) => None,
    }
}

/// Opens by both depths.
fn opened_twice(
    alloc: Global,
    outcome: &mut Outcome,
    held: Held<MemoryDisk>,
    text: &[u8],
) -> Result<Option<Held<MemoryDisk>>, Memory> {
    match opening_in(text) {
        Some(opening) => opened_by_both(alloc, outcome, held.closed(), &opening),
        None => Ok(none_of(held)),
    }
}

/// Tells what the files hold.
fn shown(
    alloc: Global,
    outcome: &mut Outcome,
    held: Held<MemoryDisk>,
) -> Result<Option<Held<MemoryDisk>>, Memory> {
    let mut disk = held.closed();
    let done = outcome.put_files(alloc, &mut disk);
    after(done, Some(Held::Disk(disk)))
}

/// Looks for a payload, and stores the capture where so many further calls of the disk pass. `None` where the text is none for that.
fn looked_and_stored(
    alloc: Global,
    outcome: &mut Outcome,
    held: Held<MemoryDisk>,
    text: &[u8],
) -> Result<Option<Held<MemoryDisk>>, Memory> {
    match held {
        Held::Disk(disk) => put_closed(alloc, outcome, disk),
        Held::Archive(archive) => stored_timed(alloc, outcome, archive, text),
    }
}

fn stored_timed(
    alloc: Global,
    outcome: &mut Outcome,
    archive: Archive<MemoryDisk>,
    text: &[u8],
) -> Result<Option<Held<MemoryDisk>>, Memory> {
    match timed_in(alloc, text) {
        Ok(Some(timed)) => {
            let (archive, told) = stored_after(alloc, archive, &timed);
            after(outcome.put_told(alloc, told), Some(Held::Archive(archive)))
        }
        Ok(None) => Ok(None),
        Err(Memory) => Err(Memory),
    }
}
