//! Steps over any disk: an archive is opened, and what is open is asked.
use crate::asking::told;
use crate::held::Held;
use crate::reopening::opened;
use crate::terms::opening_in;
use archive_core::Archive;
use archive_shelf::Depth;
use capture::Memory;
use case_steps::{Deed, Outcome, after, kept, none_of};
use disk_model::Disk;
use std::alloc::Global;

/// What is told where no archive is open.
const CLOSED: &[u8] = b"closed";

/// Does a step over any disk. `None` where it is none.
pub fn do_step<D: Disk + Drop>(
    alloc: Global,
    outcome: &mut Outcome,
    held: Held<D>,
    step: &Deed,
) -> Result<Option<Held<D>>, Memory> {
    match step.name {
        "open" => opened_for(alloc, outcome, held, step, Depth::Whole),
        "open-lines" => opened_for(alloc, outcome, held, step, Depth::Checkpoints),
        _ => asked(alloc, outcome, held, step),
    }
}

/// Opens an archive, where the text of the step says how.
fn opened_for<D: Disk + Drop>(
    alloc: Global,
    outcome: &mut Outcome,
    held: Held<D>,
    step: &Deed,
    depth: Depth,
) -> Result<Option<Held<D>>, Memory> {
    match opening_in(step.text.as_slice()) {
        Some(opening) => opened(alloc, outcome, held.closed(), &opening, depth),
        None => Ok(none_of(held)),
    }
}

/// Asks the archive, where one is open.
fn asked<D: Disk + Drop>(
    alloc: Global,
    outcome: &mut Outcome,
    held: Held<D>,
    step: &Deed,
) -> Result<Option<Held<D>>, Memory> {
    match held {
        Held::Disk(disk) => put_closed(alloc, outcome, disk),
        Held::Archive(mut archive) => {
            let done = answered(alloc, outcome, &mut archive, step);
            kept(Held::Archive(archive), done)
        }
    }
}

/// Tells what is asked of an archive. Whether the step is one.
fn answered<D: Disk>(
    alloc: Global,
    outcome: &mut Outcome,
    archive: &mut Archive<D>,
    step: &Deed,
) -> Result<bool, Memory> {
    match told(alloc, archive, step)? {
        Some(text) => after(outcome.put_answer(alloc, text.as_slice()), true),
        None => Ok(false),
    }
}

/// Tells that no archive is open.
pub fn put_closed<D: Disk + Drop>(
    alloc: Global,
    outcome: &mut Outcome,
    disk: D,
) -> Result<Option<Held<D>>, Memory> {
    after(outcome.put_answer(alloc, CLOSED), Some(Held::Disk(disk)))
}
