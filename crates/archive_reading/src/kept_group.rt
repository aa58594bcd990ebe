//! The group of a capture that is kept, as the disk has it.
ghost use Rattle.std.specs.Prelude.{◌≡◌, ◌+◌, ◌<◌, ℕ, List, IfOk, IfSome, IsTrue, Some, length, slice_get};
ghost use Rattle.capture.specs.Faults.{CountsFaults};
ghost use Rattle.warc_journal.specs.Journals as journals;
ghost use Rattle.warc_journal.specs.Journals.{IsInStep, disk_of, texts};
ghost use Rattle.warc_scan.specs.Outlines.{BeginsWithOutline};
ghost use Rattle.archive_shelf.specs.Answers.{CountsIf};
ghost use Rattle.archive_reading.specs.Bringing.{OnlyReads, is_read_fault};
ghost use Rattle.archive_volumes.specs.Volumes.{CanReadBy};
ghost use Rattle.archive_volumes.specs.Held.{book_of};
ghost use Rattle.archive_reading.specs.KeptGroups.{EndsGroup, EndsWithin, IsFirstIn, IsKeptGroup, IsNextAt, IsSomeGroup};
ghost use Rattle.archive_reading.specs.Rereading.{BeginWithText, Reaches, from_place};
ghost use Rattle.archive_volumes.specs.Spots.{text_at};
ghost use Rattle.archive_volumes.specs.declared.spot.Spot.{Spot};

use crate::part::{ReadFault, read_part};
use archive_volumes::{Spot, Volumes};
use capture::{Bytes, Memory};
use disk_model::Disk;
use record_opening::NoRecord;
use shown::Shown;
use std::alloc::Global;
use uuid::Uuid;
use warc_journal::{DiskFault, Place};
use warc_scan::{Outline, next_outline};

/// The group of a capture, as it was read.
#[derive(Drop)]
pub enum KeptGroup {
    /// A group with the capture's number: its bytes, and what they tell.
    Right { bytes: Bytes, outline: Outline },
    /// No group with its number stands there.
    Damaged,
}

/// The group with this number with which the bytes begin.
fn group_in(
    alloc: Global,
    bytes: Vec<u8>,
    namespace: &Uuid,
    number: u32,
) -> Result<KeptGroup, Memory>
    ensures { IfOk result (IsFirstIn namespace.now number bytes.items) }
{
    match next_outline(alloc, bytes.as_slice(), false, namespace, number) {
        Ok(outline) => Ok(cut_off(bytes, outline)),
        Err(NoRecord::End) => Ok(KeptGroup::Damaged),
        Err(NoRecord::Unfinished) => Ok(KeptGroup::Damaged),
        Err(NoRecord::Damaged) => Ok(KeptGroup::Damaged),
        // All the bytes are there.
        Err(NoRecord::Need(_)) => unreachable!(),
        Err(NoRecord::Memory) => Err(Memory),
    }
}

/// The bytes of which this is told, without what stands behind them.
fn cut_off(mut bytes: Vec<u8>, outline: Outline) -> KeptGroup
    ensures { (namespace : List ℕ) (number : ℕ) → BeginsWithOutline namespace number bytes.items outline
        → IsFirstIn namespace number bytes.items result }
{
    bytes.truncate(outline.len as usize);
    KeptGroup::Right {
        bytes: Bytes::of(bytes),
        outline,
    }
}

/// The volume in which the capture with this number stands.
pub(crate) fn volume_at(spots: &[Spot], number: usize) -> u32
    requires { number < length spots.now }
    ensures { (spot : Spot) → slice_get spots.now number ≡ Some spot → result ≡ spot.volume }
{
    spots[number].volume
}

/// Where the capture behind the one with this number begins, if it stands in this volume.
fn next_at(spots: &[Spot], number: u32, volume: u32) -> Option<u64>
    requires { number < length spots.now }
    ensures { IfSome result (IsNextAt spots.now number volume) }
{
    let next = number as usize + 1;
    if next == spots.len() {
        return None;
    }
    let spot = &spots[next];
    if spot.volume == volume {
        Some(spot.at)
    } else {
        None
    }
}

/// The length of the file of a volume, which isn't the last one.
fn sealed_len<D: Disk>(volumes: &mut Volumes<D>, volume: u32) -> Result<u64, DiskFault>
    requires in_step { IsTrue D.tells → IsInStep D.Disk volumes.old.journal }
    requires there { volume + 1 < journals.volumes volumes.old.journal }
    ensures len { IsTrue D.tells → IfOk result (λ len. len ≡ length (text_at (texts D.Disk volumes.old.journal) volume)) }
    ensures reads { OnlyReads D.Disk volumes.old volumes.new }
    ensures faults { CountsFaults (D.faults (disk_of volumes.old.journal)) (D.faults (disk_of volumes.new.journal)) result }
{
    volumes.journal.len(volume)
}

/// The length of a volume's text in bytes.
pub fn text_len<D: Disk>(volumes: &mut Volumes<D>, volume: u32) -> Result<u64, ReadFault>
    requires in_step { IsTrue D.tells → IsInStep D.Disk volumes.old.journal }
    requires there { volume < journals.volumes volumes.old.journal }
    ensures len { IsTrue D.tells → IfOk result (λ len. len ≡ length (text_at (texts D.Disk volumes.old.journal) volume)) }
    ensures reads { OnlyReads D.Disk volumes.old volumes.new }
    ensures faults { CountsIf (is_read_fault result) (D.faults (disk_of volumes.old.journal)) (D.faults (disk_of volumes.new.journal)) }
{
    let last = volumes.journal.volumes() - 1;
    if volume == last {
        return Ok(volumes.journal.last_len());
    }
    let len = sealed_len(volumes, volume)?;
    Ok(len)
}

/// Where the group of a capture may end: where the next one of its volume begins, or the volume's text ends.
fn group_end<D: Disk>(
    told: &Shown<bool>,
    volumes: &mut Volumes<D>,
    spots: &[Spot],
    number: u32,
) -> Result<u64, ReadFault>
    requires readable { CanReadBy D.Disk told.now.value volumes.old.journal (book_of volumes.old.held) spots.now }
    requires below { number < length spots.now }
    ensures within { IsTrue D.tells → IfOk result (EndsWithin (texts D.Disk volumes.old.journal) spots.now number) }
    ensures end { IsTrue told.now.value → IfOk result (EndsGroup (book_of volumes.old.held) spots.now number) }
    ensures reads { OnlyReads D.Disk volumes.old volumes.new }
    ensures faults { CountsIf (is_read_fault result) (D.faults (disk_of volumes.old.journal)) (D.faults (disk_of volumes.new.journal)) }
{
    let _ = told;
    let volume = volume_at(spots, number as usize);
    match next_at(spots, number, volume) {
        Some(at) => Ok(at),
        None => text_len(volumes, volume),
    }
}

/// The bytes from the place of the group of the capture with this number to where it may end, of those whose spots these are. No byte
/// of another group is read.
pub fn read_text<D: Disk>(
    told: &Shown<bool>,
    alloc: Global,
    volumes: &mut Volumes<D>,
    spots: &[Spot],
    number: u32,
) -> Result<Vec<u8>, ReadFault>
    requires readable { CanReadBy D.Disk told.now.value volumes.old.journal (book_of volumes.old.held) spots.now }
    requires below { number < length spots.now }
    ensures begins { IsTrue told.now.value → IfOk result (λ bytes. BeginWithText (book_of volumes.old.held) number bytes.items) }
    ensures bytes { IsTrue D.tells → (spot : Spot) → slice_get spots.now number ≡ Some spot
        → IfOk result (λ bytes. bytes.items ≡ from_place (texts D.Disk volumes.old.journal) spot (length bytes.items)) }
    ensures reaches { IsTrue D.tells → (spot : Spot) → slice_get spots.now number ≡ Some spot
        → IfOk result (λ bytes. Reaches (texts D.Disk volumes.old.journal) spots.now number spot (spot.at + length bytes.items)) }
    ensures reads { OnlyReads D.Disk volumes.old volumes.new }
    ensures faults { CountsIf (is_read_fault result) (D.faults (disk_of volumes.old.journal)) (D.faults (disk_of volumes.new.journal)) }
{
    let spot = &spots[number as usize];
    let end = group_end(told, volumes, spots, number)?;
    let place = Place {
        volume: spot.volume,
        at: spot.at,
        len: end.saturating_sub(spot.at),
    };
    read_part(alloc, volumes, place)
}

/// The group of the capture with this number, of those whose spots these are. It is read by its place, and no byte of
/// another one is.
pub fn read_group<D: Disk>(
    told: &Shown<bool>,
    alloc: Global,
    volumes: &mut Volumes<D>,
    spots: &[Spot],
    number: u32,
) -> Result<KeptGroup, ReadFault>
    requires readable { CanReadBy D.Disk told.now.value volumes.old.journal (book_of volumes.old.held) spots.now }
    requires below { number < length spots.now }
    ensures some { IfOk result (IsSomeGroup (book_of volumes.old.held).namespace number) }
    ensures exact { IsTrue told.now.value → IfOk result (IsKeptGroup (book_of volumes.old.held) number) }
    ensures reads { OnlyReads D.Disk volumes.old volumes.new }
    ensures faults { CountsIf (is_read_fault result) (D.faults (disk_of volumes.old.journal)) (D.faults (disk_of volumes.new.journal)) }
{
    let bytes = read_text(told, alloc, volumes, spots, number)?;
    let kept = group_in(alloc, bytes, &volumes.held.namespace, number)?;
    Ok(kept)
}
