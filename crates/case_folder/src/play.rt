//! Plays the steps of a case.
use crate::connection::{Origins, written};
use crate::found::{Disk, Found, stopped};
use crate::plans::{failing_in_part, fused, moving, plan_of, unchanged, visited};
use crate::quiet::Quiet;
use capture::Memory;
use case_steps::{Deed, FolderSetting, Outcome, Player, after, outcome_of_steps};
use case_stores::{Held, do_step};
use folder_disk::{FolderDisk, Unopened};
use memory_folder::MemoryFolders;
use std::alloc::Global;

/// What is told where the folder couldn't be held, or a disk in it failed.
const REFUSED: &[u8] = b"DiskFault";

/// What is told where no archive is open.
const CLOSED: &[u8] = b"closed";

/// Does steps over a folder. Where a step `stop` has no number, it stops by this choice.
#[derive(Drop)]
struct Stage {
    origins: Origins,
    choice: u32,
}

/// What each step tells. A step `stop` without a number stops by this choice. `None` where a step is none, or memory for a stop was
/// refused.
pub fn outcome_of(
    alloc: Global,
    setting: FolderSetting,
    origins: Origins,
    steps: &[Deed],
    choice: u32,
) -> Result<Option<Outcome>, Memory> {
    let found = Found::Free(quiet_of(alloc, setting)?);
    let mut stage = Stage { origins, choice };
    outcome_of_steps(alloc, &mut stage, found, steps)
}

/// A folder whose calls go so.
fn quiet_of(alloc: Global, setting: FolderSetting) -> Result<Quiet, Memory> {
    let plan = plan_of(alloc, setting)?;
    let mut folders = MemoryFolders::new(alloc, None);
    folders.plan = plan;
    Ok(Quiet { folders })
}

impl Player for Stage {
    type Held = Found;

    fn step(
        &mut self,
        alloc: Global,
        outcome: &mut Outcome,
        held: Found,
        step: &Deed,
    ) -> Result<Option<Found>, Memory> {
        if is_of_folder(step.name) {
            return set(alloc, self.choice, held.freed(), step);
        }
        match step.name {
            "open" => opened(alloc, outcome, held, step),
            "open-lines" => opened(alloc, outcome, held, step),
            "connection" => connected(alloc, outcome, &mut self.origins, held, step),
            _ => asked(alloc, outcome, held, step),
        }
    }
}

/// Whether all is let go for a step of this name.
fn is_of_folder(name: &str) -> bool {
    matches!(
        name,
        "stop" | "let-go" | "fuse" | "in-part" | "moving" | "visit" | "visit-synced"
    )
}

/// Does a step for which all is let go.
fn set(alloc: Global, choice: u32, quiet: Quiet, step: &Deed) -> Result<Option<Found>, Memory> {
    match left_by(alloc, choice, quiet, step)? {
        Some(quiet) => Ok(Some(Found::Free(quiet))),
        None => Ok(None),
    }
}

/// What a step leaves for which all is let go.
fn left_by(alloc: Global, choice: u32, quiet: Quiet, step: &Deed) -> Result<Option<Quiet>, Memory> {
    let text = step.text.as_slice();
    match step.name {
        "stop" => Ok(stopped_by(quiet, step.choice(choice))),
        "let-go" => Ok(unchanged(quiet, text)),
        "fuse" => Ok(fused(quiet, text)),
        "in-part" => Ok(failing_in_part(quiet, text)),
        "moving" => Ok(moving(quiet, text)),
        "visit" => visited(alloc, quiet, text, false),
        _ => visited(alloc, quiet, text, true),
    }
}

/// Opens the archive. Where no disk holds the folder it is held, counted and synced first.
fn opened(
    alloc: Global,
    outcome: &mut Outcome,
    found: Found,
    step: &Deed,
) -> Result<Option<Found>, Memory> {
    match found {
        Found::Held(held) => done(alloc, outcome, held, step),
        Found::Free(quiet) => match FolderDisk::open(quiet, alloc) {
            Ok(disk) => done(alloc, outcome, Held::Disk(disk), step),
            Err(unopened) => {
                let Unopened { system, error: _ } = unopened;
                told(alloc, outcome, Found::Free(system), REFUSED)
            }
        },
    }
}

/// Does a step of the archive, where one is open.
fn asked(
    alloc: Global,
    outcome: &mut Outcome,
    found: Found,
    step: &Deed,
) -> Result<Option<Found>, Memory> {
    match found {
        Found::Held(held) => done(alloc, outcome, held, step),
        Found::Free(quiet) => told(alloc, outcome, Found::Free(quiet), CLOSED),
    }
}

/// Does a step of the archive over the disk in the folder.
fn done(
    alloc: Global,
    outcome: &mut Outcome,
    held: Held<Disk>,
    step: &Deed,
) -> Result<Option<Found>, Memory> {
    match do_step(alloc, outcome, held, step)? {
        Some(held) => Ok(Some(Found::Held(held))),
        None => Ok(None),
    }
}

/// Serves a client that gives the step's text, where an archive is open, and tells what is written to it.
fn connected(
    alloc: Global,
    outcome: &mut Outcome,
    origins: &mut Origins,
    found: Found,
    step: &Deed,
) -> Result<Option<Found>, Memory> {
    match found {
        Found::Held(Held::Archive(archive)) => {
            let mut archive = archive;
            let text = written(alloc, &mut archive, origins, step.text.as_slice());
            let done = put_written(alloc, outcome, text);
            after(done, Some(Found::Held(Held::Archive(archive))))
        }
        Found::Held(Held::Disk(disk)) => {
            told(alloc, outcome, Found::Held(Held::Disk(disk)), CLOSED)
        }
        Found::Free(quiet) => told(alloc, outcome, Found::Free(quiet), CLOSED),
    }
}

fn put_written(
    alloc: Global,
    outcome: &mut Outcome,
    text: Result<Vec<u8>, Memory>,
) -> Result<(), Memory> {
    let text = text?;
    outcome.put_answer(alloc, text.as_slice())
}

/// Tells a text.
fn told(
    alloc: Global,
    outcome: &mut Outcome,
    found: Found,
    text: &[u8],
) -> Result<Option<Found>, Memory> {
    after(outcome.put_answer(alloc, text), Some(found))
}

/// Stops the machine by a choice, where the step names one.
fn stopped_by(quiet: Quiet, choice: Option<u32>) -> Option<Quiet> {
    match choice {
        Some(choice) => stopped(quiet, choice),
        None => None,
    }
}
