//! Writing the checkpoints of sealed volumes.
ghost use Rattle.std.specs.Prelude.{◌≡◌, ◌≤◌, ◌+◌, ◌-◌, ◌<◌, ◌^◌, IsTrue, OnOk, length};
ghost use Rattle.disk_model.specs.Crash.{Leaves};
ghost use Rattle.warc_journal.specs.Journals.{disk_of};
ghost use Rattle.checkpoint.specs.Faults.{CountsDisk};
ghost use Rattle.archive_volumes.specs.Volumes.{CanReadBy};
ghost use Rattle.archive_volumes.specs.Held.{book_of};
ghost use Rattle.volume_lines.specs.OfGroups.{IsFactsOf};
ghost use Rattle.archive_settling.specs.Finished.{FirstAreFinished};
ghost use Rattle.archive_settling.specs.Supplying.{GoesOnBy, GoesThrough, KeepsVolumes, KnowsMore, checkpoint_fault_of, shelved_as};

use crate::lined::one_if;
use crate::missing::supply;
use archive_reading::ReadFault;
use archive_volumes::{Spot, VolumeFacts, Volumes};
use checkpoint::{CheckpointFault, volumes_have_one_list_of_lines};
use disk_model::Disk;
use shown::Shown;
use std::alloc::Global;
use volume_lines::lines_of;

/// Writes the checkpoints of the volumes but the last, one behind the other, from the first one on that isn't known to be settled. How many
/// were written.
pub fn settle_volumes<D: Disk>(
    told: &Shown<bool>,
    alloc: Global,
    volumes: &mut Volumes<D>,
    spots: &[Spot],
    settled: &mut u32,
) -> Result<u32, CheckpointFault>
    requires readable { CanReadBy D.Disk told.now.value volumes.old.journal (book_of volumes.old.held) spots.now }
    requires few { length spots.now + 1 < 2 ^ 32 }
    requires sealed { settled.old ≤ length (book_of volumes.old.held).volumes - 1 }
    requires first { IsTrue told.now.value → Leaves (D.images (disk_of volumes.old.journal)) (FirstAreFinished (book_of volumes.old.held) settled.old) }
    ensures keeps { KeepsVolumes D.Disk told.now.value volumes.old volumes.new }
    ensures went { IsTrue D.tells → GoesThrough D.Disk (shelved_as told.now.value (book_of volumes.old.held) spots.now) settled.new
        (disk_of volumes.old.journal) (disk_of volumes.new.journal) result }
    ensures knows { KnowsMore (book_of volumes.old.held) settled.old settled.new result }
    ensures unasked { settled.old ≡ length (book_of volumes.old.held).volumes - 1 → OnOk result (volumes.new ≡ volumes.old) }
    ensures faults { CountsDisk (D.faults (disk_of volumes.old.journal)) (D.faults (disk_of volumes.new.journal)) result }
{
    let facts = volumes.held.facts(alloc)?;
    let mut written = 0;
    'volumes: while *settled as usize + 1 < facts.len() {
        let wrote = settle_volume(told, alloc, volumes, spots, facts[*settled as usize])?;
        written += one_if(wrote);
        *settled += 1;
    }
    Ok(written)
}

/// Writes the checkpoint of a volume, where it isn't there. Whether it was written.
fn settle_volume<D: Disk>(
    told: &Shown<bool>,
    alloc: Global,
    volumes: &mut Volumes<D>,
    spots: &[Spot],
    facts: VolumeFacts,
) -> Result<bool, CheckpointFault>
    requires readable { CanReadBy D.Disk told.now.value volumes.old.journal (book_of volumes.old.held) spots.now }
    requires there { IsFactsOf (book_of volumes.old.held) facts }
    requires some { 0 < facts.count }
    requires small { facts.first + facts.count < 2 ^ 32 }
    requires sealed { facts.volume + 1 < length (book_of volumes.old.held).volumes }
    ensures keeps { KeepsVolumes D.Disk told.now.value volumes.old volumes.new }
    ensures went { IsTrue D.tells → GoesOnBy D.Disk (shelved_as told.now.value (book_of volumes.old.held) spots.now) facts.volume
        (disk_of volumes.old.journal) (disk_of volumes.new.journal) result }
    ensures faults { CountsDisk (D.faults (disk_of volumes.old.journal)) (D.faults (disk_of volumes.new.journal)) result }
{
    volumes_have_one_list_of_lines();
    match lines_of(told, alloc, volumes, spots, facts) {
        Ok(Some(lines)) => supply(alloc, &mut volumes.journal, facts.volume, lines.as_slice()),
        Ok(None) => Ok(false),
        Err(fault) => Err(fault_of(fault)),
    }
}

/// The fault of reading, as that of a checkpoint.
fn fault_of(fault: ReadFault) -> CheckpointFault
    ensures { result ≡ checkpoint_fault_of fault }
{
    match fault {
        ReadFault::DiskFault => CheckpointFault::DiskFault,
        ReadFault::Memory => CheckpointFault::Memory,
    }
}
