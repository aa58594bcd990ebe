//! The command `check`: how much an archive holds.
ghost use Rattle.std.specs.Prelude.{◌⊎◌, None};
ghost use Rattle.proxy_run.specs.Checks.{IsCounted};
ghost use Rattle.archive_reopening.specs.Known.{opening_of};
ghost use Rattle.command.specs.Opening.{IsNotOpened};
ghost use Rattle.command.specs.Printing.{LacksMemory, Prints, printed_as};
ghost use Rattle.command.specs.Texts as spec;

use archive_shelf::{Counts, Depth};
use capture::Memory;
use command::{Ran, Status, Unknown, counts_text, open, print_as};
use disk_model::Disk;
use outside::Sink;
use std::alloc::Global;

/// Opens the archive on the disk, prints how much it holds, and closes it. Nothing is written.
pub fn check<D: Disk, O: Sink>(alloc: Global, disk: D, out: &mut O) -> Ran<D>
    ensures { IsCounted D.Disk O.Sink disk result.disk (printed_as out.old out.new result.status)
        ⊎ IsNotOpened D.Disk O.Sink (opening_of disk Depth.Whole None None) result.disk (printed_as out.old out.new result.status) }
{
    let archive = match open::<Unknown, D, O>(alloc, disk, None, Depth::Whole, out) {
        Ok(archive) => archive,
        Err(ran) => return ran,
    };
    let status = print_counts(alloc, out, &archive.counts());
    Ran {
        status,
        disk: archive.close(),
    }
}

/// Prints how much an archive holds, unless there is no memory.
fn print_counts<O: Sink>(alloc: Global, out: &mut O, counts: &Counts) -> Status
    ensures { Prints O.Sink Status.Done (spec.counts_text counts.now) out.old out.new result ⊎ LacksMemory O.Sink out.old out.new result }
{
    match counts_text(alloc, counts) {
        Ok(text) => print_as(out, text.as_slice(), Status::Done),
        Err(Memory) => Status::Memory,
    }
}
