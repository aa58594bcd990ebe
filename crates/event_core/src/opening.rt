//! How the archive of a run is opened.
ghost use Rattle.std.specs.Prelude.{IfErr, IfOk, Some};
ghost use Rattle.warc_text.specs.Ids.{IsUuid};
ghost use Rattle.archive_opening.specs.Telling.{MayBeSettled};
ghost use Rattle.archive_core.specs.Holdings.{AreLimits};
ghost use Rattle.archive_reopening.specs.Known.{IsNotOpenedKnown, IsReopenedKnown, by_checkpoints};

use archive_core::Archive;
use archive_reopening::reopen_told;
use archive_shelf::ReopenFault;
use capture::{Book, Limits};
use disk_model::{Disk, MemoryDisk};
use shown::Shown;
use std::alloc::Global;
use uuid::Uuid;

/// How an archive is opened, at first and behind each stop: in this namespace, with these limits.
#[derive(Drop)]
pub(crate) struct Opening {
    pub(crate) namespace: Uuid,
    pub(crate) limits: Limits,
    /// The book with which the run begins, where the caller's proof names it.
    pub(crate) first: Shown<Option<Book>>,
}

impl Opening {
    /// Opens the archive that a disk holds, by its checkpoints.
    pub(crate) fn open(
        &self,
        alloc: Global,
        disk: MemoryDisk,
        known: &Shown<Option<Book>>,
    ) -> Result<Archive<MemoryDisk>, (ReopenFault, MemoryDisk)>
        requires uuid { IsUuid self.now.namespace }
        requires limits { AreLimits self.now.limits }
        requires known { MayBeSettled ⟦<MemoryDisk as Disk>⟧ disk (Some self.now.namespace) known.now.value }
        ensures reopened { IfOk result (IsReopenedKnown ⟦<MemoryDisk as Disk>⟧ (by_checkpoints disk (Some self.now.namespace) known.now.value) self.now.limits) }
        ensures refused { IfErr result (IsNotOpenedKnown ⟦<MemoryDisk as Disk>⟧ disk (Some self.now.namespace) known.now.value) }
    {
        reopen_told(alloc, disk, Some(self.namespace), self.limits, known)
    }
}
