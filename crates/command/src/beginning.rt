//! What a command begins with.
ghost use Rattle.std.specs.Prelude.{◌≡◌, IfErr, IfOk, IsTrue, OnOk};
ghost use Rattle.command.specs.Beginning.{BeginningKeepsTheBook, BeginningOpensNoMore, BeginsWith, IsBegun, IsNotBegun, SettledIsKept, stores};
ghost use Rattle.command.specs.Printing.{printed_as};

use crate::opening::print_fault;
use crate::status::Ran;
use crate::words::{Command, asked_of};
use archive_shelf::ReopenFault;
use checkpoint::clear_unsealed;
use disk_model::Disk;
use outside::Sink;
use std::alloc::Global;

/// The disk that a command begins with. Before an archive is opened to store, the checkpoints of volumes that aren't sealed are taken away. None
/// stands there, unless somebody took the last volume away or put a file there. Where the disk fails, that was printed.
pub fn begin<D: Disk, O: Sink>(
    alloc: Global,
    command: Command,
    disk: D,
    out: &mut O,
) -> Result<D, Ran<D>>
    ensures begun { IfOk result (BeginsWith D.Disk (stores command) disk) }
    ensures refused { IfErr result (λ ran. IsTrue (stores command) × IsNotBegun D.Disk O.Sink disk ran.disk (printed_as out.old out.new ran.status)) }
    ensures prints_nothing { OnOk result (out.new ≡ out.old) }
{
    match asked_of(command) {
        Some(_) => cleared(alloc, disk, out),
        None => Ok(disk),
    }
}

/// The disk without the checkpoints of volumes that aren't sealed.
fn cleared<D: Disk, O: Sink>(alloc: Global, disk: D, out: &mut O) -> Result<D, Ran<D>>
    ensures begun { IfOk result (IsBegun D.Disk disk) }
    ensures refused { IfErr result (λ ran. IsNotBegun D.Disk O.Sink disk ran.disk (printed_as out.old out.new ran.status)) }
    ensures prints_nothing { OnOk result (out.new ≡ out.old) }
{
    let mut disk = disk;
    match clear_unsealed(&mut disk) {
        Ok(()) => Ok(disk),
        Err(_) => Err(Ran {
            status: print_fault(alloc, out, &ReopenFault::DiskFault),
            disk,
        }),
    }
}

/// What may be opened of the disk that a command begins with, or failed to begin with, might have been opened before, and a book that it is kept for stays
/// that. What is settled for a book is kept for it.
pub fn beginning_keeps_what_is_known<D: Disk>()
    ensures opens { BeginningOpensNoMore D.Disk }
    ensures stays { BeginningKeepsTheBook D.Disk }
    ensures kept { SettledIsKept }
{}
