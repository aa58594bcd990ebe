//! One event after the other.
ghost use Rattle.std.specs.Prelude.{◌≡◌, ℕ, IfErr, IfOk, IsTrue, List, is_some};
ghost use Rattle.capture.specs.Faults.{RoseBy};
ghost use Rattle.disk_model.specs.Device.{reading_of};
ghost use Rattle.warc_journal.specs.Journals.{disk_of};
ghost use Rattle.warc_text.specs.Fits.{Fits};
ghost use Rattle.warc_text.specs.Ids.{IsUuid};
ghost use Rattle.archive_core.specs.Holdings.{AreLimits};
ghost use Rattle.archive_core.specs.Told.{told_of};
ghost use Rattle.event_core.specs.Events.{CanCome};
ghost use Rattle.event_core.specs.Faults.{reopen_faults, reply_faults};
ghost use Rattle.event_core.specs.declared.event.Event.TheVariants as events;
ghost use Rattle.event_core.specs.steps.Standing.{EndsBy, GoesOn, IsStanding};

use crate::asking::{bring_event, date_event, map_event, roll_event, settle_event, store_event};
use crate::opening::Opening;
use crate::stopping::stop_event;
use crate::{Event, Reply};
use archive_core::Archive;
use archive_shelf::ReopenFault;
use capture::Taken;
use disk_model::{Disk, MemoryDisk};
use std::alloc::Global;

/// Stops the disk with this choice while a capture is stored: behind so many calls each call of the disk fails, but for those of the stop.
fn stop_within(
    alloc: Global,
    archive: Archive<MemoryDisk>,
    opening: &Opening,
    taken: &Taken,
    choice: u32,
) -> Result<(Archive<MemoryDisk>, Reply), (ReopenFault, MemoryDisk)>
    requires uuid { IsUuid opening.now.namespace }
    requires limits { AreLimits opening.now.limits }
    requires fits { Fits taken.now }
    requires stands { IsTrue (is_some opening.now.first.value) → IsStanding opening.now.limits opening.now.namespace (told_of ⟦<MemoryDisk as Disk>⟧ archive) }
    ensures goes_on { IfOk result (λ next. (calls : ℕ) → IsTrue (is_some opening.now.first.value) → GoesOn opening.now.limits opening.now.namespace (told_of ⟦<MemoryDisk as Disk>⟧ archive)
        (told_of ⟦<MemoryDisk as Disk>⟧ next.0) (events.StopWithin taken.now calls choice) next.1) }
    ensures refused { IfErr result (λ refused. (calls : ℕ) → IsTrue (is_some opening.now.first.value) → EndsBy opening.now.limits opening.now.namespace (told_of ⟦<MemoryDisk as Disk>⟧ archive)
        (events.StopWithin taken.now calls choice) refused.0 (reading_of refused.1)) }
    ensures rose { IfOk result (λ next. RoseBy (reply_faults next.1) (disk_of archive.journal).faults (disk_of next.0.journal).faults) }
    ensures faults { IfErr result (λ refused. RoseBy (reopen_faults refused.0) (disk_of archive.journal).faults refused.1.faults) }
{
    let mut archive = archive;
    let _answer = store_event(alloc, &mut archive, taken);
    stop_event(alloc, archive, opening, choice)
}

/// One event. Where the archive isn't opened again behind a stop the disk is given back.
pub(crate) fn take_event(
    alloc: Global,
    archive: Archive<MemoryDisk>,
    opening: &Opening,
    event: &Event,
) -> Result<(Archive<MemoryDisk>, Reply), (ReopenFault, MemoryDisk)>
    requires uuid { IsUuid opening.now.namespace }
    requires limits { AreLimits opening.now.limits }
    requires comes { CanCome event.now }
    requires stands { IsTrue (is_some opening.now.first.value) → IsStanding opening.now.limits opening.now.namespace (told_of ⟦<MemoryDisk as Disk>⟧ archive) }
    ensures goes_on { IfOk result (λ next. IsTrue (is_some opening.now.first.value) → GoesOn opening.now.limits opening.now.namespace (told_of ⟦<MemoryDisk as Disk>⟧ archive)
        (told_of ⟦<MemoryDisk as Disk>⟧ next.0) event.now next.1) }
    ensures refused { IfErr result (λ refused. IsTrue (is_some opening.now.first.value) → EndsBy opening.now.limits opening.now.namespace (told_of ⟦<MemoryDisk as Disk>⟧ archive)
        event.now refused.0 (reading_of refused.1)) }
    ensures rose { IfOk result (λ next. RoseBy (reply_faults next.1) (disk_of archive.journal).faults (disk_of next.0.journal).faults) }
    ensures faults { IfErr result (λ refused. RoseBy (reopen_faults refused.0) (disk_of archive.journal).faults refused.1.faults) }
{
    let mut archive = archive;
    match event {
        Event::Store(taken) => {
            let reply = store_event(alloc, &mut archive, taken);
            Ok((archive, reply))
        }
        Event::Roll(now) => {
            let reply = roll_event(alloc, &mut archive, *now);
            Ok((archive, reply))
        }
        Event::Bring(number) => {
            let reply = bring_event(alloc, &mut archive, *number);
            Ok((archive, reply))
        }
        Event::ByDate(key, time) => {
            let reply = date_event(alloc, &mut archive, key, *time);
            Ok((archive, reply))
        }
        Event::Map(key) => {
            let reply = map_event(alloc, &mut archive, key);
            Ok((archive, reply))
        }
        Event::Settle => {
            let reply = settle_event(alloc, &mut archive);
            Ok((archive, reply))
        }
        Event::Stop(choice) => stop_event(alloc, archive, opening, *choice),
        Event::StopWithin {
            taken,
            calls,
            choice,
        } => stop_within(alloc, archive.fused(*calls), opening, taken, *choice),
    }
}
