//! Stores the captures of a file of WARC records, one after the other.
ghost use Rattle.std.specs.Prelude.{◌≡◌, ◌+◌, ◌++◌, ◌≤◌, ◌<◌, [], ◌∷◌, length, List, None, Some, IfOk, IsTrue, OnOk};
ghost use Rattle.std.specs.List.{flat_map};
ghost use Rattle.capture.specs.declared.captured.Taken.{Taken as Capture};
ghost use Rattle.importing.specs.Imports.{IsTellable, taken_in};
ghost use Rattle.importing.specs.Keeping.{Keeps, intake_of};
ghost use Rattle.importing.specs.Texts.{skip_in, skip_line};
ghost use Rattle.importing.specs.steps.Taking.{FitsIn, HasTaken, Stands, TakesAll, TakesNext};
ghost use Rattle.importing.specs.declared.input.TheConstants.{INPUT_LIMIT as LIMIT};
ghost use Rattle.warc_text.specs.Fits.{Fits};

use crate::tally::Tally;
use archive_shelf::{Shelf, StoreFault};
use capture::{Memory, Taken};
use std::alloc::Global;
use warc_reader::{CaptureReader, Outcome};

/// Stores what the records of a file give, in order, up to a refusal; and notes those that are skipped, to the file's end.
pub fn take_all<S: Shelf>(
    alloc: Global,
    shelf: &mut S,
    reader: &mut CaptureReader,
    tally: &mut Tally,
) -> Result<(), Memory>
    requires begun { HasTaken S.alone reader.old tally.old (S.told shelf.old) (S.told shelf.old) }
    requires short { length reader.old.file ≤ LIMIT }
    ensures { TakesAll S.alone reader.old.file tally.new (S.told shelf.old) (S.told shelf.new) result }
{
    'taking: loop {
        match take_next(alloc, shelf, reader, tally) {
            Ok(true) => {}
            Ok(false) => return Ok(()),
            Err(Memory) => return Err(Memory),
        }
    }
}

/// Takes what the next record gives, and says whether there was one.
fn take_next<S: Shelf>(
    alloc: Global,
    shelf: &mut S,
    reader: &mut CaptureReader,
    tally: &mut Tally,
) -> Result<bool, Memory>
    requires stands { Stands reader.old }
    requires stored { tally.old.stored ≤ LIMIT }
    requires skipped { tally.old.skipped ≤ LIMIT }
    ensures takes { (was : S) → HasTaken S.alone reader.old tally.old (S.told was) (S.told shelf.old)
        → TakesNext S.alone reader.new tally.new (S.told was) (S.told shelf.new) result }
    ensures file { reader.new.file ≡ reader.old.file }
    ensures farther { IfOk result (λ more. IsTrue more → reader.old.at < reader.new.at) }
{
    let outcome = match reader.next(alloc) {
        Ok(Some(outcome)) => outcome,
        Ok(None) => return Ok(false),
        Err(Memory) => return Err(Memory),
    };
    match take(alloc, shelf, outcome, tally) {
        Ok(()) => Ok(true),
        Err(Memory) => Err(Memory),
    }
}

/// Stores the capture that a record gives, or notes that it is skipped.
fn take<S: Shelf>(
    alloc: Global,
    shelf: &mut S,
    outcome: Outcome,
    tally: &mut Tally,
) -> Result<(), Memory>
    requires fits { FitsIn outcome }
    requires stored { tally.old.stored ≤ LIMIT }
    requires skipped { tally.old.skipped ≤ LIMIT }
    ensures keeps { (was : S) (takens : List Capture) → Keeps S.alone (intake_of takens tally.old.stored tally.old.refused) (S.told was) (S.told shelf.old)
        → Keeps S.alone (intake_of (takens ++ taken_in outcome) tally.new.stored tally.new.refused) (S.told was) (S.told shelf.new) }
    ensures lines { OnOk result (tally.new.lines.items ≡ tally.old.lines.items ++ flat_map skip_line (skip_in outcome)) }
    ensures count { OnOk result (tally.new.skipped ≡ tally.old.skipped + length (skip_in outcome)) }
    ensures tellable { OnOk result (IsTellable tally.old.refused → IsTellable tally.new.refused) }
{
    match outcome {
        Outcome::Taken(taken) => keep(alloc, shelf, &taken, tally),
        Outcome::Skipped(skipped) => tally.skip(&skipped),
        Outcome::PassedOver => Ok(()),
    }
}

/// Stores a capture, unless one was refused before it.
fn keep<S: Shelf>(
    alloc: Global,
    shelf: &mut S,
    taken: &Taken,
    tally: &mut Tally,
) -> Result<(), Memory>
    requires fits { Fits taken.now }
    requires stored { tally.old.stored ≤ LIMIT }
    ensures keeps { (was : S) (takens : List Capture) → Keeps S.alone (intake_of takens tally.old.stored tally.old.refused) (S.told was) (S.told shelf.old)
        → Keeps S.alone (intake_of (takens ++ taken.now ∷ []) tally.new.stored tally.new.refused) (S.told was) (S.told shelf.new) }
    ensures same_lines { tally.new.lines.items ≡ tally.old.lines.items }
    ensures same_skipped { tally.new.skipped ≡ tally.old.skipped }
    ensures tellable { OnOk result (IsTellable tally.old.refused → IsTellable tally.new.refused) }
{
    match tally.refused {
        Some(_) => Ok(()),
        None => store_one(alloc, shelf, taken, tally),
    }
}

/// Stores a capture, where none was refused before it.
fn store_one<S: Shelf>(
    alloc: Global,
    shelf: &mut S,
    taken: &Taken,
    tally: &mut Tally,
) -> Result<(), Memory>
    requires fits { Fits taken.now }
    requires stored { tally.old.stored ≤ LIMIT }
    requires none_refused { tally.old.refused ≡ None }
    ensures keeps { (was : S) (takens : List Capture) → Keeps S.alone (intake_of takens tally.old.stored tally.old.refused) (S.told was) (S.told shelf.old)
        → Keeps S.alone (intake_of (takens ++ taken.now ∷ []) tally.new.stored tally.new.refused) (S.told was) (S.told shelf.new) }
    ensures same_lines { tally.new.lines.items ≡ tally.old.lines.items }
    ensures same_skipped { tally.new.skipped ≡ tally.old.skipped }
    ensures tellable { OnOk result (IsTellable tally.new.refused) }
{
    match shelf.store(alloc, taken) {
        Ok(_receipt) => {
            tally.stored += 1;
            Ok(())
        }
        Err(fault) => {
            tally.refused = Some(fault);
            goes_on(fault)
        }
    }
}

/// Whether an import goes on behind a refusal: but for want of memory.
fn goes_on(fault: StoreFault) -> Result<(), Memory>
    ensures { OnOk result (IsTellable (Some fault)) }
{
    match fault {
        StoreFault::Full { .. } => Ok(()),
        StoreFault::DiskFault => Ok(()),
        StoreFault::Damaged { .. } => Ok(()),
        StoreFault::Memory => Err(Memory),
    }
}
