//! A list of events, over a disk in memory.
ghost use Rattle.std.specs.Prelude.{◌+◌, [], All, IfSome, IsTrue, Option, is_some};
ghost use Rattle.capture.specs.Faults.{RoseBy};
ghost use Rattle.warc_journal.specs.Journals.{disk_of};
ghost use Rattle.warc_text.specs.Ids.{IsUuid};
ghost use Rattle.archive_core.specs.Holdings.{AreLimits};
ghost use Rattle.archive_core.specs.Told.{told_of};
ghost use Rattle.event_core.specs.Events.{CanCome};
ghost use Rattle.event_core.specs.Faults.{disk_faults};
ghost use Rattle.event_core.specs.Machine.{State};
ghost use Rattle.event_core.specs.Running.{HasReplies, IsRun, MayStart, end_faults};
ghost use Rattle.event_core.specs.steps.Standing.{Follows, IsStanding};

use crate::events::take_event;
use crate::opening::Opening;
use crate::stopping::close;
use crate::{Event, Reply};
use archive_core::Archive;
use archive_shelf::ReopenFault;
use capture::{Items, Limits};
use disk_model::{Disk, MemoryDisk};
use shown::Shown;
use std::alloc::Global;
use uuid::Uuid;

/// How a run of events ended.
#[derive(Clone, Copy)]
pub enum RanEnd {
    /// Each event came.
    All,
    /// The archive wasn't opened, at first or behind a stop.
    NotOpened(ReopenFault),
    /// There was no memory for the next reply; its event didn't come.
    Memory,
}

/// The replies to the events that came, how the run ended, and the disk as it was left.
#[derive(Drop)]
pub struct Ran {
    /// A reply for each event that came, in their order.
    pub replies: Items<Reply>,
    /// Whether all came, or why not.
    pub end: RanEnd,
    /// The disk, with all its counts.
    pub disk: MemoryDisk,
}

/// Runs events over the archive that a disk in memory holds, and opens it again behind each stop. Room for each reply is made before
/// its event begins. Where the archive isn't opened the run ends. The caller's proof may name the state in which it begins: no code sees
/// that, and nothing depends on it.
pub fn run_events(
    alloc: Global,
    disk: MemoryDisk,
    namespace: Uuid,
    limits: Limits,
    events: &[Event],
) -> Ran
    ghost start: { Option State }
    requires uuid { IsUuid namespace }
    requires limits { AreLimits limits }
    requires come { All CanCome events.now }
    requires starts { MayStart disk namespace start }
    ensures runs { IfSome start (λ first. IsRun limits first events.now result) }
    ensures replies { HasReplies events.now result.replies result.end }
    ensures faults { RoseBy (disk_faults result.replies + end_faults result.end) disk.faults result.disk.faults }
{
    let first = Shown::told_by(&limits);
    let opening = Opening {
        namespace,
        limits,
        first,
    };
    match opening.open(alloc, disk, &opening.first) {
        Ok(archive) => run_all(alloc, archive, &opening, events),
        Err((fault, disk)) => Ran {
            replies: Items::of(Vec::new(alloc)),
            end: RanEnd::NotOpened(fault),
            disk,
        },
    }
}

/// Runs events over an archive.
fn run_all(alloc: Global, archive: Archive<MemoryDisk>, opening: &Opening, events: &[Event]) -> Ran
    requires uuid { IsUuid opening.now.namespace }
    requires limits { AreLimits opening.now.limits }
    requires come { All CanCome events.now }
    requires stands { IsTrue (is_some opening.now.first.value) → IsStanding opening.now.limits opening.now.namespace (told_of ⟦<MemoryDisk as Disk>⟧ archive) }
    ensures runs { IsTrue (is_some opening.now.first.value) → (start : State)
        → Follows opening.now.limits opening.now.namespace start [] [] (told_of ⟦<MemoryDisk as Disk>⟧ archive) → IsRun opening.now.limits start events.now result }
    ensures replies { HasReplies events.now result.replies result.end }
    ensures faults { RoseBy (disk_faults result.replies + end_faults result.end) (disk_of archive.journal).faults result.disk.faults }
{
    let mut archive = archive;
    let mut replies = Vec::new(alloc);
    for event in events {
        if replies.reserve(1).is_err() {
            return Ran {
                replies: Items::of(replies),
                end: RanEnd::Memory,
                disk: close(archive),
            };
        }
        let (next, reply) = match take_event(alloc, archive, opening, event) {
            Ok(taken) => taken,
            Err((fault, disk)) => {
                return Ran {
                    replies: Items::of(replies),
                    end: RanEnd::NotOpened(fault),
                    disk,
                };
            }
        };
        replies.push_reserved(reply);
        archive = next;
    }
    Ran {
        replies: Items::of(replies),
        end: RanEnd::All,
        disk: close(archive),
    }
}
