//! The journal of volumes on a disk in memory, to which groups are added without an archive.
ghost use Rattle.std.specs.Prelude.{◌<◌, IsTrue, OnOk};
ghost use Rattle.time_text.specs.Texts.{InRange};
ghost use Rattle.warc_journal.specs.Journals.{IsInStep, volumes};

use capture::Taken;
use digest32::payload_digest;
use disk_model::{Disk, MemoryDisk};
use measuring::{NOON, Stopped};
use std::alloc::Global;
use uuid::Uuid;
use warc_journal::{Extent, Further, Journal};
use warc_text::{group_text, info_text, texts_are_committed};

/// No volume gets longer, and no group.
const LONGEST: u64 = 1 << 40;

/// A journal over an empty disk.
#[tactic(auto, unfolding(disk_model::specs::Image::files_of))]
pub fn journal_of_nothing(alloc: Global) -> Journal<MemoryDisk>
    ensures { IsInStep ⟦<MemoryDisk as Disk>⟧ result }
{
    let nothing = Extent {
        volumes: 0,
        end: 0,
        is_dirty: false,
        further: Further::Absent,
    };
    Journal::over(MemoryDisk::new(alloc, Vec::new(alloc)), nothing)
}

/// Begins the next volume.
pub fn begin<D: Disk>(
    alloc: Global,
    journal: &mut Journal<D>,
    namespace: &Uuid,
) -> Result<(), Stopped>
    requires in_step { IsTrue D.tells → IsInStep D.Disk journal.old }
    ensures volumes { OnOk result (0 < volumes journal.new) }
    ensures in_step { OnOk result (IsTrue D.tells → IsInStep D.Disk journal.new) }
{
    texts_are_committed();
    let number = journal.volumes();
    if number == u32::MAX {
        return Err(Stopped::Memory);
    }
    let info = info_text(alloc, namespace, number, NOON)?;
    if info.as_slice().len() as u64 > LONGEST {
        return Err(Stopped::Memory);
    }
    match journal.roll(info.as_slice()) {
        Ok(()) => Ok(()),
        Err(_) => Err(Stopped::Memory),
    }
}

/// Adds a group to the last volume.
pub fn add<D: Disk>(
    alloc: Global,
    journal: &mut Journal<D>,
    namespace: &Uuid,
    number: u32,
    taken: &Taken,
) -> Result<(), Stopped>
    requires volumes { 0 < volumes journal.old }
    requires in_step { IsTrue D.tells → IsInStep D.Disk journal.old }
    requires date { InRange taken.now.date }
    ensures volumes { OnOk result (0 < volumes journal.new) }
    ensures in_step { OnOk result (IsTrue D.tells → IsInStep D.Disk journal.new) }
{
    texts_are_committed();
    let digest = payload_digest(taken.wire.as_slice());
    let group = group_text(alloc, namespace, number, taken, &digest, None)?;
    if journal.last_len() > LONGEST || group.as_slice().len() as u64 > LONGEST {
        return Err(Stopped::Memory);
    }
    match journal.append(group.as_slice()) {
        Ok(_) => Ok(()),
        Err(_) => Err(Stopped::Memory),
    }
}
