//! Opens the archive on a disk, and says why it isn't opened.
ghost use Rattle.std.specs.Prelude.{◌≡◌, ◌⊎◌, IfErr, IfOk, IfSome, IsTrue, List, OnOk, ℕ};
ghost use Rattle.archive_opening.specs.Telling.{MayBeSettled};
ghost use Rattle.archive_reopening.specs.Known.{opening_of};
ghost use Rattle.archive_reopening.specs.Standing.{KeepsOn};
ghost use Rattle.command.specs.Opening.{IsNotOpened, IsOpened};
ghost use Rattle.command.specs.Printing.{LacksMemory, Prints, printed_as};
ghost use Rattle.command.specs.Texts.{IsFaultText};
ghost use Rattle.warc_text.specs.Ids.{IsUuid};

use crate::printing::print_as;
use crate::status::{Ran, Status};
use crate::texts::fault_text;
use archive_core::Archive;
use archive_reopening::reopen_known;
use archive_shelf::{Depth, ReopenFault};
use capture::{Limits, Memory};
use disk_model::Disk;
use outside::Sink;
use std::alloc::Global;
use uuid::Uuid;

/// How much an archive takes: a gigabyte a volume, and a million captures.
const LIMITS: Limits = Limits {
    volume_bytes: 1_000_000_000,
    captures: 1_000_000,
};

/// Names the book for which a disk is settled, where a caller's proof knows it: one that kept the disk. No code sees it, and nothing depends on it.
pub trait Known {
    ghost use Rattle.std.specs.Prelude.{Option};
    ghost use Rattle.capture.specs.declared.book.Book.{Book};

    ghost book: { Option Book };
}

/// Nobody knows which book a disk holds.
pub struct Unknown;

impl Known for Unknown {
    ghost use Rattle.std.specs.Prelude.{None};

    ghost book = { None };
}

/// Opens the archive on a disk, as deep as that. Refused, the cause was printed.
pub fn open<K: Known, D: Disk, O: Sink>(
    alloc: Global,
    disk: D,
    asked: Option<Uuid>,
    depth: Depth,
    out: &mut O,
) -> Result<Archive<D>, Ran<D>>
    requires uuid { IfSome asked IsUuid }
    requires known { MayBeSettled D.Disk disk asked K.book }
    ensures opened { IfOk result (IsOpened D.Disk (opening_of disk depth asked K.book)) }
    ensures stood { depth ≡ Depth.Checkpoints → IfOk result (λ archive. IsTrue D.tells → KeepsOn D.Disk disk archive) }
    ensures refused { IfErr result (λ ran. IsNotOpened D.Disk O.Sink (opening_of disk depth asked K.book) ran.disk (printed_as out.old out.new ran.status)) }
    ensures prints_nothing { OnOk result (out.new ≡ out.old) }
{
    match reopen_known(alloc, disk, asked, LIMITS, depth) {
        Ok(archive) => Ok(archive),
        Err((fault, disk)) => Err(Ran {
            status: print_fault(alloc, out, &fault),
            disk,
        }),
    }
}

/// Prints why an archive isn't opened, unless there is no memory.
pub(crate) fn print_fault<O: Sink>(alloc: Global, out: &mut O, fault: &ReopenFault) -> Status
    ensures { ((text : List ℕ) × IsFaultText fault.now text × Prints O.Sink Status.Archive text out.old out.new result)
        ⊎ LacksMemory O.Sink out.old out.new result }
{
    match fault_text(alloc, fault) {
        Ok(text) => print_as(out, text.as_slice(), Status::Archive),
        Err(Memory) => Status::Memory,
    }
}
