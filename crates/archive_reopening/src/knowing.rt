//! Opening an archive, whose book may be known.
ghost use Rattle.std.specs.Prelude.{◌≡◌, IfErr, IfOk, IfSome, IsTrue, Option};
ghost use Rattle.capture.specs.declared.book.Book.{Book as BookValue};
ghost use Rattle.warc_text.specs.Ids.{IsUuid};
ghost use Rattle.archive_opening.specs.Telling.{MayBeSettled};
ghost use Rattle.archive_core.specs.Holdings.{AreLimits};
ghost use Rattle.archive_reopening.specs.Known.{HasCheckpointsOfKnown, IsNotOpenedAt, IsNotOpenedKnown, IsReopenedAt, IsReopenedKnown, MayBeKnown, by_checkpoints, opening_of};
ghost use Rattle.archive_reopening.specs.Reopening.{IsNotOpened, IsReopened};
ghost use Rattle.archive_reopening.specs.Standing.{KeepsOn};

use crate::making::archive_of;
use crate::whole::open_whole;
use archive_core::Archive;
use archive_opening::open_by_checkpoints;
use archive_shelf::{Depth, ReopenFault};
use capture::{Book, Limits};
use disk_model::Disk;
use shown::Shown;
use std::alloc::Global;
use uuid::Uuid;

/// Opens the archive that a disk holds, in this namespace where one is given. Each volume is synced, and read as deep as that, by
/// checkpoints each file of those is synced too; nothing is written. Refused, the disk is given back.
///
/// A disk without volumes opens to an archive without captures, in the namespace that is given, or in that of the UUID of
/// zeros. An archive that holds more captures than `limits` allow opens as well, and takes no further one. What is opened by checkpoints
/// isn't told, since a checkpoint may say something else than its volume holds.
pub fn reopen<D: Disk>(
    alloc: Global,
    disk: D,
    namespace: Option<Uuid>,
    limits: Limits,
    depth: Depth,
) -> Result<Archive<D>, (ReopenFault, D)>
    requires uuid { IfSome namespace IsUuid }
    requires limits { AreLimits limits }
    ensures reopened { IfOk result (IsReopenedAt depth D.Disk disk namespace limits) }
    ensures refused { IfErr result (IsNotOpenedAt depth D.Disk disk namespace) }
{
    reopen_known(alloc, disk, namespace, limits, depth)
}

/// Opens the archive that a disk holds, as `reopen` does, for a caller whose proof may name its book: one that kept the disk. By
/// checkpoints the book is told only where it is known, since a checkpoint may say something else than its volume holds. No code sees the
/// book, and nothing depends on it.
pub fn reopen_known<D: Disk>(
    alloc: Global,
    disk: D,
    namespace: Option<Uuid>,
    limits: Limits,
    depth: Depth,
) -> Result<Archive<D>, (ReopenFault, D)>
    ghost known: { Option BookValue }
    requires uuid { IfSome namespace IsUuid }
    requires limits { AreLimits limits }
    requires known { MayBeKnown D.Disk disk namespace known }
    requires settled { depth ≡ Depth.Checkpoints → HasCheckpointsOfKnown D.Disk disk known }
    ensures reopened { IfOk result (IsReopenedKnown D.Disk (opening_of disk depth namespace known) limits) }
    ensures refused { IfErr result (IsNotOpenedKnown D.Disk disk namespace known) }
    ensures whole { depth ≡ Depth.Whole → IfOk result (IsReopened D.Disk disk namespace limits) }
    ensures whole_refused { depth ≡ Depth.Whole → IfErr result (IsNotOpened D.Disk disk namespace) }
    ensures stood { depth ≡ Depth.Checkpoints → IfOk result (λ archive. IsTrue D.tells → KeepsOn D.Disk disk archive) }
{
    match depth {
        Depth::Whole => open_whole(alloc, disk, namespace, limits),
        Depth::Checkpoints => {
            let known = Shown::told_by(&depth);
            reopen_told(alloc, disk, namespace, limits, &known)
        }
    }
}

/// Opens the archive that a disk holds by its checkpoints, for a caller that has its book as a value which clauses see.
pub fn reopen_told<D: Disk>(
    alloc: Global,
    disk: D,
    namespace: Option<Uuid>,
    limits: Limits,
    known: &Shown<Option<Book>>,
) -> Result<Archive<D>, (ReopenFault, D)>
    requires uuid { IfSome namespace IsUuid }
    requires limits { AreLimits limits }
    requires known { MayBeSettled D.Disk disk namespace known.now.value }
    ensures reopened { IfOk result (IsReopenedKnown D.Disk (by_checkpoints disk namespace known.now.value) limits) }
    ensures refused { IfErr result (IsNotOpenedKnown D.Disk disk namespace known.now.value) }
    ensures stood { IfOk result (λ archive. IsTrue D.tells → KeepsOn D.Disk disk archive) }
{
    match open_by_checkpoints(alloc, disk, &namespace, known) {
        Ok(opened) => {
            let told = Shown::told_by(known);
            archive_of(alloc, opened, limits, told)
        }
        Err(refused) => Err(refused),
    }
}
