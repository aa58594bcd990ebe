//! The checkpoints that are missing are written before and after a command works with its archive.
ghost use Rattle.std.specs.Prelude.{◌≡◌, IfErr, IfOk, IfSome, IsTrue, OnOk};
ghost use Rattle.archive_core.specs.Lasting.{KeepsStored, StandsSince};
ghost use Rattle.archive_core.specs.Stood.{Stood};
ghost use Rattle.archive_reopening.specs.Standing.{KeepsOn};
ghost use Rattle.archive_opening.specs.Telling.{MayBeSettled};
ghost use Rattle.archive_volumes.specs.Volumes.{OpensNear};
ghost use Rattle.archive_reopening.specs.Known.{by_checkpoints};
ghost use Rattle.command.specs.Opening.{IsNotOpened};
ghost use Rattle.command.specs.Printing.{printed_as};
ghost use Rattle.command.specs.Settling as spec;
ghost use Rattle.command.specs.Settling.{ClosesSettled, OpensSettled};
ghost use Rattle.warc_text.specs.Ids.{IsUuid};

use crate::opening::{Known, open};
use crate::status::{Ran, Status};
use archive_core::Archive;
use archive_settling::settling_keeps_checkpoints_right;
use archive_shelf::Depth;
use checkpoint::CheckpointFault;
use disk_model::Disk;
use outside::Sink;
use std::alloc::Global;
use uuid::Uuid;

/// Opens the archive on a disk by its checkpoints, and writes those that are missing. What stops that changes nothing else. Where the archive isn't opened,
/// the cause was printed.
pub fn open_and_settle<K: Known, D: Disk, O: Sink>(
    alloc: Global,
    disk: D,
    asked: Option<Uuid>,
    out: &mut O,
) -> Result<Archive<D>, Ran<D>>
    requires uuid { IfSome asked IsUuid }
    requires known { MayBeSettled D.Disk disk asked K.book }
    ensures opened { IfOk result (OpensSettled D.Disk (by_checkpoints disk asked K.book)) }
    ensures stood { IfOk result (λ archive. IsTrue D.tells → KeepsOn D.Disk disk archive) }
    ensures refused { IfErr result (λ ran. IsNotOpened D.Disk O.Sink (by_checkpoints disk asked K.book) ran.disk (printed_as out.old out.new ran.status)) }
    ensures prints_nothing { OnOk result (out.new ≡ out.old) }
{
    settling_keeps_checkpoints_right();
    let mut archive = match open::<K, D, O>(alloc, disk, asked, Depth::Checkpoints, out) {
        Ok(archive) => archive,
        Err(ran) => return Err(ran),
    };
    archive.shows_its_book();
    let _answer = archive.settle(alloc);
    Ok(archive)
}

/// Writes the checkpoints that are missing, and closes the archive. The status is that of what was done before, unless there was no memory for this.
pub fn settle_and_close<D: Disk>(alloc: Global, archive: Archive<D>, said: Status) -> Ran<D>
    ensures closed { ClosesSettled D.Disk archive said result.disk result.status }
    ensures near { IsTrue archive.told → OpensNear D.Disk result.disk archive.book }
    ensures stands { (stood : Stood) → IsTrue D.tells → KeepsStored D.Disk stood archive → StandsSince D.Disk stood archive.book result.disk }
{
    let mut archive = archive;
    archive.shows_its_book();
    let answer = archive.settle(alloc);
    Ran {
        status: status_behind(answer, said),
        disk: archive.close(),
    }
}

/// The status behind the last settling: that of what was done before, unless there was no memory for this.
fn status_behind(answer: Result<u32, CheckpointFault>, said: Status) -> Status
    ensures { result ≡ spec.settled_status answer said }
{
    match answer {
        Ok(_) => said,
        Err(CheckpointFault::DiskFault) => said,
        Err(CheckpointFault::Memory) => Status::Memory,
    }
}
