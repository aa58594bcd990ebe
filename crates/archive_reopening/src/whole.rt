//! Opening an archive by all that its volumes hold.
ghost use Rattle.std.specs.Prelude.{IfErr, IfOk, IfSome};
ghost use Rattle.warc_text.specs.Ids.{IsUuid};
ghost use Rattle.archive_core.specs.Holdings.{AreLimits};
ghost use Rattle.archive_reopening.specs.Reopening.{IsNotOpened, IsReopened};

use crate::making::archive_of;
use archive_core::Archive;
use archive_opening::open_volumes;
use archive_shelf::ReopenFault;
use capture::Limits;
use disk_model::Disk;
use shown::Shown;
use std::alloc::Global;
use uuid::Uuid;

/// Opens the archive that a disk holds by all that its volumes hold.
pub(crate) fn open_whole<D: Disk>(
    alloc: Global,
    disk: D,
    namespace: Option<Uuid>,
    limits: Limits,
) -> Result<Archive<D>, (ReopenFault, D)>
    requires uuid { IfSome namespace IsUuid }
    requires limits { AreLimits limits }
    ensures reopened { IfOk result (IsReopened D.Disk disk namespace limits) }
    ensures refused { IfErr result (IsNotOpened D.Disk disk namespace) }
{
    match open_volumes(alloc, disk, &namespace) {
        Ok(opened) => {
            let told = Shown::told_by(&limits);
            archive_of(alloc, opened, limits, told)
        }
        Err(refused) => Err(refused),
    }
}
