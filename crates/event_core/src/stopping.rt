//! A disk that is stopped, and its archive that is opened again.
ghost use Rattle.std.specs.Prelude.{◌≡◌, ℕ, IfErr, IfOk, IsTrue, List, is_some};
ghost use Rattle.capture.specs.Faults.{RoseBy};
ghost use Rattle.capture.specs.declared.limits.Limits.{Limits};
ghost use Rattle.disk_model.specs.Device.{images_of, reading_of};
ghost use Rattle.disk_model.specs.Image.{Image};
ghost use Rattle.warc_journal.specs.Journals.{disk_of};
ghost use Rattle.warc_text.specs.Ids.{IsUuid};
ghost use Rattle.archive_shelf.specs.Storing.{counts_of};
ghost use Rattle.archive_volumes.specs.Volumes.{OpensNear};
ghost use Rattle.archive_core.specs.Holdings.{AreLimits};
ghost use Rattle.archive_core.specs.Told.{told_of};
ghost use Rattle.event_core.specs.Faults.{reopen_faults, reply_faults};
ghost use Rattle.event_core.specs.Machine.{IsEither};
ghost use Rattle.event_core.specs.Running.{HoldsOne};
ghost use Rattle.event_core.specs.declared.event.Event.TheVariants as events;
ghost use Rattle.event_core.specs.declared.reply.Reply.TheVariants as replies;
ghost use Rattle.event_core.specs.steps.Standing.{EndsBy, GoesOn, IsStanding, Standing, Stands, state_at};

use crate::Reply;
use crate::opening::Opening;
use archive_core::Archive;
use archive_shelf::ReopenFault;
use capture::Book;
use disk_model::{Disk, MemoryDisk};
use shown::{Choice, Shown};
use std::alloc::Global;
use uuid::Uuid;

/// Gives the disk of an archive back: each of its images stands for the book, or for the other one that may be opened.
pub(crate) fn close(archive: Archive<MemoryDisk>) -> MemoryDisk
    ensures disk { result ≡ disk_of archive.journal }
    ensures near { IsTrue archive.told → OpensNear ⟦<MemoryDisk as Disk>⟧ result archive.book }
    ensures holds { (limits : Limits) (namespace : List ℕ) (was : Standing) (image : Image)
        → Stands limits namespace (told_of ⟦<MemoryDisk as Disk>⟧ archive) was → images_of result image → HoldsOne image (IsEither (state_at was 0)) }
{
    archive.close()
}

/// A disk behind a stop, and whether the archive on it stood in a state of the machine.
struct Left {
    disk: MemoryDisk,
    namespace: Uuid,
    stood: Shown<bool>,
}

/// The book on such a disk, where the archive stood: the stop left that or another one, for which its files stand.
struct IsKnown;

impl Choice<Left, Option<Book>> for IsKnown {
    ghost use Rattle.event_core.specs.steps.Standing.{Knows};

    ghost holds = { λ left known. Knows left.disk left.namespace left.stood.value known };
}

/// Stops the disk of an archive with this choice, and opens it again by its checkpoints.
fn reopen(
    alloc: Global,
    archive: Archive<MemoryDisk>,
    opening: &Opening,
    choice: u32,
) -> Result<Archive<MemoryDisk>, (ReopenFault, MemoryDisk)>
    requires uuid { IsUuid opening.now.namespace }
    requires limits { AreLimits opening.now.limits }
    requires stands { IsTrue (is_some opening.now.first.value) → IsStanding opening.now.limits opening.now.namespace (told_of ⟦<MemoryDisk as Disk>⟧ archive) }
    ensures goes_on { IfOk result (λ next. IsTrue (is_some opening.now.first.value) → GoesOn opening.now.limits opening.now.namespace (told_of ⟦<MemoryDisk as Disk>⟧ archive)
        (told_of ⟦<MemoryDisk as Disk>⟧ next) (events.Stop choice) (replies.Reopened (counts_of next.book))) }
    ensures refused { IfErr result (λ refused. IsTrue (is_some opening.now.first.value) → EndsBy opening.now.limits opening.now.namespace (told_of ⟦<MemoryDisk as Disk>⟧ archive)
        (events.Stop choice) refused.0 (reading_of refused.1)) }
    ensures same_faults { IfOk result (λ next. (disk_of next.journal).faults ≡ (disk_of archive.journal).faults) }
    ensures faults { IfErr result (λ refused. RoseBy (reopen_faults refused.0) (disk_of archive.journal).faults refused.1.faults) }
{
    let stood = Shown::told_by(&opening.first);
    match close(archive).stop(choice) {
        Ok(disk) => {
            let left = Left {
                disk,
                namespace: opening.namespace,
                stood,
            };
            let known = Shown::chosen::<Left, IsKnown>(&left);
            let Left {
                disk,
                namespace: _,
                stood: _stood,
            } = left;
            opening.open(alloc, disk, &known)
        }
        Err(disk) => Err((ReopenFault::Memory, disk)),
    }
}

/// The same, as an event.
pub(crate) fn stop_event(
    alloc: Global,
    archive: Archive<MemoryDisk>,
    opening: &Opening,
    choice: u32,
) -> Result<(Archive<MemoryDisk>, Reply), (ReopenFault, MemoryDisk)>
    requires uuid { IsUuid opening.now.namespace }
    requires limits { AreLimits opening.now.limits }
    requires stands { IsTrue (is_some opening.now.first.value) → IsStanding opening.now.limits opening.now.namespace (told_of ⟦<MemoryDisk as Disk>⟧ archive) }
    ensures goes_on { IfOk result (λ next. IsTrue (is_some opening.now.first.value) → GoesOn opening.now.limits opening.now.namespace (told_of ⟦<MemoryDisk as Disk>⟧ archive)
        (told_of ⟦<MemoryDisk as Disk>⟧ next.0) (events.Stop choice) next.1) }
    ensures refused { IfErr result (λ refused. IsTrue (is_some opening.now.first.value) → EndsBy opening.now.limits opening.now.namespace (told_of ⟦<MemoryDisk as Disk>⟧ archive)
        (events.Stop choice) refused.0 (reading_of refused.1)) }
    ensures rose { IfOk result (λ next. RoseBy (reply_faults next.1) (disk_of archive.journal).faults (disk_of next.0.journal).faults) }
    ensures faults { IfErr result (λ refused. RoseBy (reopen_faults refused.0) (disk_of archive.journal).faults refused.1.faults) }
{
    match reopen(alloc, archive, opening, choice) {
        Ok(archive) => {
            let counts = archive.counts();
            Ok((archive, Reply::Reopened(counts)))
        }
        Err(refused) => Err(refused),
    }
}
