//! Groups of a volume that were read at once.
ghost use Rattle.std.specs.Prelude.{◌≡◌, ◌⊎◌, ◌-◌, ◌≤◌, [], IfSome, IsTrue, OnOk, length, min};
ghost use Rattle.fixity.specs.Faults.{CountsDisk};
ghost use Rattle.fixity.specs.steps.Batches.{FitsIn, IsPart};
ghost use Rattle.fixity.specs.steps.Files.{IsIn, file_in};

use crate::FixityFault;
use crate::due::Due;
use crate::reading::read_into;
use crate::shares::{Front, Share, cut};
use disk_model::Disk;
use std::alloc::Global;

/// How many bytes are read at once, unless the next group is long: 16 MiB, which a processor's cache holds.
const BATCH: u64 = 16_777_216;

/// How many groups as long as the next one are read at once, so that each worker has some.
const GROUPS: u64 = 32;

/// How many bytes are read at once for that, at most: 64 MiB, since two batches are in memory.
const MOST_BYTES: u64 = 67_108_864;

/// A place in a volume where a group is due.
#[derive(Clone, Copy)]
pub struct Spot {
    /// Where it is, in bytes from the volume's first byte on.
    pub place: u64,
    /// How many of the volume's groups stand before it.
    pub before: u32,
}

/// Groups that were read at once.
#[derive(Drop)]
pub struct Batch {
    /// Where it begins.
    pub at: Spot,
    /// Its bytes.
    pub bytes: Vec<u8>,
    /// Into how many shares it is cut, or 0 where it is left whole.
    pub parts: usize,
    /// The shares into which it is cut.
    pub shares: Vec<Share>,
    /// The groups that all shares have.
    pub told: Front,
}

/// An empty batch.
pub fn empty_batch(alloc: Global, parts: usize) -> Batch
    ensures bytes { result.bytes.items ≡ [] }
    ensures place { result.at.place ≡ 0 }
{
    Batch {
        at: Spot {
            place: 0,
            before: 0,
        },
        bytes: Vec::new(alloc),
        parts,
        shares: Vec::new(alloc),
        told: Front { groups: 0, len: 0 },
    }
}

/// Reads so many bytes from a spot on, or as many as stand there, in the place of what the batch had, and cuts them into shares.
pub fn read_batch<D: Disk>(
    disk: &mut D,
    due: Due,
    spot: Spot,
    most: u64,
    batch: &mut Batch,
) -> Result<(), FixityFault>
    requires place { spot.place ≤ due.len }
    requires there { IsTrue D.tells → IsIn (D.reading disk.old) due }
    ensures at { OnOk result (batch.new.at ≡ spot) }
    ensures part { IsTrue D.tells → OnOk result (IsPart (file_in (D.reading disk.old) due) batch.new) }
    ensures len { OnOk result (length batch.new.bytes.items ≡ min most (due.len - spot.place)) }
    ensures reading { IsTrue D.tells → D.reading disk.new ≡ D.reading disk.old }
    ensures faults { CountsDisk (D.faults disk.old) (D.faults disk.new) result }
{
    read_into(disk, due, spot.place, most, &mut batch.bytes)?;
    batch.at = spot;
    let left = due.count.saturating_sub(spot.before);
    batch.told = cut(batch.bytes.as_slice(), left, batch.parts, &mut batch.shares)?;
    Ok(())
}

/// Reads ahead what is likely to be the next batch behind this one, if it is known where that begins and both may be in memory.
pub fn read_ahead<D: Disk>(
    disk: &mut D,
    due: Due,
    batch: &Batch,
    ahead: &mut Batch,
) -> Result<(), FixityFault>
    requires there { IsTrue D.tells → IsIn (D.reading disk.old) due }
    ensures part { IsTrue D.tells → IsPart (file_in (D.reading disk.old) due) ahead.old → OnOk result (IsPart (file_in (D.reading disk.old) due) ahead.new) }
    ensures fits { FitsIn due.len ahead.old → OnOk result (FitsIn due.len ahead.new) }
    ensures reading { IsTrue D.tells → D.reading disk.new ≡ D.reading disk.old }
    ensures faults { CountsDisk (D.faults disk.old) (D.faults disk.new) result }
{
    let Some(spot) = spot_behind(batch, due) else {
        return Ok(());
    };
    read_batch(disk, due, spot, size_behind(batch.told), ahead)
}

/// Where the next batch is likely to begin: behind the groups of all shares, unless no more are due, or this batch has the rest of
/// the file or leaves no room for another.
fn spot_behind(batch: &Batch, due: Due) -> Option<Spot>
    ensures { IfSome result (λ spot. spot.place ≤ due.len) }
{
    if batch.told.groups == 0 {
        return None;
    }
    let before = batch.at.before.checked_add(batch.told.groups)?;
    if due.count <= before {
        return None;
    }
    if MOST_BYTES < batch.bytes.capacity() as u64 {
        return None;
    }
    let end = batch.at.place.checked_add(batch.bytes.len() as u64)?;
    if due.len <= end {
        return None;
    }
    let place = batch.at.place.checked_add(batch.told.len as u64)?;
    if due.len < place {
        return None;
    }
    Some(Spot { place, before })
}

/// How many bytes are read ahead behind groups like these.
fn size_behind(told: Front) -> u64 {
    let each = told.len as u64 / told.groups.max(1) as u64;
    MOST_BYTES.min(size_for(each))
}

/// How many bytes are read at once where the next group has so many at least. What isn't told yet of its length is likely to
/// stand in an eighth more.
pub fn size_for(group: u64) -> u64
    ensures { group ≤ result }
{
    let many = MOST_BYTES.min(group.saturating_mul(GROUPS));
    let one = group.saturating_add(group / 8);
    BATCH.max(many).max(one)
}

/// Gives memory back before so many bytes are read in the place of `bytes`: what two batches may not have beside each other.
pub fn make_room(most: u64, bytes: &mut Vec<u8>, ahead: &mut Vec<u8>)
    ensures { (ahead.new.items ≡ ahead.old.items) ⊎ (ahead.new.items ≡ []) }
{
    if MOST_BYTES < most {
        give_back(ahead);
    } else if MOST_BYTES < bytes.capacity() as u64 {
        give_back(bytes);
    }
}

/// Gives back the memory of bytes.
fn give_back(bytes: &mut Vec<u8>)
    ensures { bytes.new.items ≡ [] }
{
    bytes.clear();
    bytes.shrink_to_fit();
}
