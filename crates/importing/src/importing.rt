//! The command `import`: stores the captures of a WARC file of another tool.
ghost use Rattle.std.specs.Prelude.{◌≡◌, ◌≤◌, ◌⊎◌, ℕ, true, List, [], length, IfSome, IsTrue, Ok, Err, Option};
ghost use Rattle.archive_core.specs.Lasting.{KeepsStored};
ghost use Rattle.archive_core.specs.Told.{told_of};
ghost use Rattle.archive_opening.specs.Telling.{MayBeSettled};
ghost use Rattle.archive_shelf.specs.declared.fault.StoreFault.{StoreFault as Refusal};
ghost use Rattle.importing.specs.Imports.{Imports, IsTellable, Tells, TellsFile, status_after as after, takens_in};
ghost use Rattle.importing.specs.Keeping.{intake_of};
ghost use Rattle.archive_reopening.specs.Known.{by_checkpoints};
ghost use Rattle.command.specs.Gates.{gate_told};
ghost use Rattle.command.specs.Objects.{objects_of};
ghost use Rattle.command.specs.Opening.{IsNotOpened};
ghost use Rattle.command.specs.Printing.{printed_as};
ghost use Rattle.command.specs.Words as spec;
ghost use Rattle.importing.specs.steps.Importing.{HasImported, ImportsFirst};
ghost use Rattle.importing.specs.steps.Taking.{HasSkips};
ghost use Rattle.importing.specs.declared.input.TheConstants.{INPUT_LIMIT as LIMIT};
ghost use Rattle.warc_reader.specs.Files.{IsFileFault};
ghost use Rattle.warc_reader.specs.Imports.{IsImport};
ghost use Rattle.warc_reader.specs.declared.import.Outcome.{Outcome};
ghost use Rattle.warc_text.specs.Ids.{IsUuid};

use crate::input::{InputFault, read_first};
use crate::taking::take_all;
use crate::tally::{Tally, damaged_input, put_sums};
use archive_core::{Archive, StoodTexts};
use archive_reopening::{Since, Watched};
use archive_shelf::{Depth, Shelf, StoreFault};
use capture::Memory;
use command::{Command, Known, Ran, Status, asked_of, open, print_as, stood_on};
use disk_model::Disk;
use outside::{Gate, Sink};
use shown::Shown;
use std::alloc::Global;
use std::marker::Brand;
use warc_reader::{CaptureReader, ImportFault};

/// Opens the archive on the disk in the namespace that the command names, by its checkpoints, reads the gate's first connection to its end, stores the
/// captures of what it gave in order, prints what was skipped and how many were stored, and closes the archive. A file that
/// isn't records to its end gives none. Behind a capture that is refused none is stored; those before it stay.
pub fn import<K: Known, D: Disk, G: Gate, O: Sink>(
    alloc: Global,
    command: Command,
    disk: D,
    gate: &mut G,
    out: &mut O,
) -> Ran<D>
    requires uuid { IfSome (spec.asked_of command) IsUuid }
    requires known { MayBeSettled D.Disk disk (spec.asked_of command) K.book }
    ensures { Imports D.Disk G.Gate O.Sink G.Link.tells K.book (spec.asked_of command) (objects_of disk gate.old tt out.old)
        (objects_of result.disk gate.new tt out.new) result.status
        ⊎ (IsNotOpened D.Disk O.Sink (by_checkpoints disk (spec.asked_of command) K.book) result.disk (printed_as out.old out.new result.status) × (gate.new ≡ gate.old)) }
{
    let given = Shown::told_by(&disk);
    let archive = match open::<K, D, O>(alloc, disk, asked_of(command), Depth::Checkpoints, out) {
        Ok(archive) => archive,
        Err(ran) => return ran,
    };
    let stood = stood_on(&given, &archive);
    let (archive, status) = import_watched::<D, G, O, Brand>(alloc, archive, &stood, gate, out);
    Ran {
        status,
        disk: archive.close(),
    }
}

/// Reads the gate's first connection to its end, and imports what it gives into an archive that keeps what stood in its volumes.
fn import_watched<D: Disk, G: Gate, O: Sink, S: Since>(
    alloc: Global,
    archive: Archive<D>,
    stood: &Shown<StoodTexts>,
    gate: &mut G,
    out: &mut O,
) -> (Archive<D>, Status)
    requires { IsTrue D.tells → KeepsStored D.Disk S.stood archive }
    ensures first { ImportsFirst true O.Sink G.Link.tells (gate_told G.Gate gate.old) (gate_told G.Gate gate.new) (told_of D.Disk archive) (told_of D.Disk result.0)
        (printed_as out.old out.new result.1) }
    ensures keeps { IsTrue D.tells → KeepsStored D.Disk S.stood result.0 }
{
    // only the clauses read it
    let _ = stood;
    let mut watched = Watched::<D, S>::over(archive);
    let status = import_first(alloc, &mut watched, gate, out);
    (watched.into_archive(), status)
}

/// Reads the gate's first connection to its end, and imports what it gives.
fn import_first<S: Shelf, G: Gate, O: Sink>(
    alloc: Global,
    shelf: &mut S,
    gate: &mut G,
    out: &mut O,
) -> Status
    ensures { ImportsFirst S.alone O.Sink G.Link.tells (gate_told G.Gate gate.old) (gate_told G.Gate gate.new) (S.told shelf.old) (S.told shelf.new)
        (printed_as out.old out.new result) }
{
    match read_first(alloc, gate) {
        Ok(input) => import_file(alloc, shelf, input.as_slice(), out),
        Err(fault) => tell_no_input(out, fault),
    }
}

/// Tells why there is no input.
fn tell_no_input<O: Sink>(out: &mut O, fault: InputFault) -> Status
    ensures { (stored : ℕ) (refused : Option Refusal) → Tells O.Sink (intake_of [] stored refused) (printed_as out.old out.new result) (Err fault) }
{
    match fault {
        InputFault::TooLong => print_as(out, b"input too long\n", Status::Archive),
        InputFault::Failed => Status::Outside,
        InputFault::Memory => Status::Memory,
    }
}

/// Stores what the records of the file give, and tells of it.
fn import_file<S: Shelf, O: Sink>(alloc: Global, shelf: &mut S, file: &[u8], out: &mut O) -> Status
    requires { length file.now ≤ LIMIT }
    ensures { HasImported S.alone O.Sink (Ok file.now) (S.told shelf.old) (S.told shelf.new) (printed_as out.old out.new result) }
{
    let mut reader = match CaptureReader::new(alloc, file) {
        Ok(reader) => reader,
        Err(fault) => return tell_no_file(alloc, out, fault),
    };
    let mut tally = Tally::new(alloc);
    match take_all(alloc, shelf, &mut reader, &mut tally) {
        Ok(()) => tell_all(out, tally),
        Err(Memory) => Status::Memory,
    }
}

/// Tells at which place the input isn't records any more, unless there is no memory.
fn tell_no_file<O: Sink>(alloc: Global, out: &mut O, fault: ImportFault) -> Status
    ensures { (file : List ℕ) (stored : ℕ) (refused : Option Refusal) → IsFileFault file fault → TellsFile O.Sink (intake_of [] stored refused) (printed_as out.old out.new result) file }
{
    match fault {
        ImportFault::NotARecord(at) => match damaged_input(alloc, at) {
            Ok(text) => print_as(out, text.as_slice(), Status::Archive),
            Err(Memory) => Status::Memory,
        },
        ImportFault::Memory => Status::Memory,
    }
}

/// Tells what was skipped, how many captures were stored and why no more were, unless there is no memory.
fn tell_all<O: Sink>(out: &mut O, tally: Tally) -> Status
    ensures { (file : List ℕ) (outcomes : List Outcome) → IsImport file outcomes → HasSkips tally outcomes → IsTellable tally.refused
        → TellsFile O.Sink (intake_of (takens_in outcomes) tally.stored tally.refused) (printed_as out.old out.new result) file }
{
    let Tally {
        mut lines,
        skipped,
        stored,
        refused,
    } = tally;
    match put_sums(&mut lines, stored, skipped, &refused) {
        Ok(()) => print_as(out, lines.as_slice(), status_after(&refused)),
        Err(Memory) => Status::Memory,
    }
}

/// The status behind an import in which a capture was refused, or none.
fn status_after(refused: &Option<StoreFault>) -> Status
    ensures { result ≡ after refused.now }
{
    match refused {
        Some(_) => Status::Archive,
        None => Status::Done,
    }
}
