//! The capture to which a piece refers.
ghost use Rattle.std.specs.Prelude.{◌≡◌, ◌<◌, IfOk, IfSome, IsFalse, IsTrue, Some, None, length, slice_get};
ghost use Rattle.warc_journal.specs.Journals.{disk_of};
ghost use Rattle.archive_shelf.specs.Answers.{CountsIf};
ghost use Rattle.archive_reading.specs.Bringing.{OnlyReads};
ghost use Rattle.archive_volumes.specs.Volumes.{CanReadBy};
ghost use Rattle.archive_volumes.specs.Spots.{AreHeldWhole, MayBeWhole, whole_from};
ghost use Rattle.archive_volumes.specs.Held.{book_of};
ghost use Rattle.archive_payloads.specs.Choosing.{IsKeptWith};
ghost use Rattle.archive_reading.specs.Rereading.{HaveDigest, IsToldBy};
ghost use Rattle.archive_volumes.specs.declared.spot.Spot.{Spot as SpotValue};
ghost use Rattle.archive_pieces.specs.PieceFaults.{is_take_fault};
ghost use Rattle.archive_pieces.specs.PieceOriginals.{Agrees, AsksLength, AsksOriginal, ChoosesOriginal, FindsOriginal, IsLengthIn, IsLengthOf, IsNextGroup, TellsSoLong, agrees_by, whole_len_by};

use crate::fault::PieceFault;
use archive_reading::{KeptGroup, framing_behind, read_group};
use archive_volumes::{Spot, Volumes};
use capture::{Digest, Framing, Memory, Stored};
use disk_model::Disk;
use revisit_table::Digests;
use shown::Shown;
use std::alloc::Global;
use uuid::Uuid;
use warc_scan::{Group, Outline, Revisited};
use warc_text::{IdKind, id_of};

/// Whether a revisit's record names the capture with this number: its target, its date and the id of its record.
fn is_named(namespace: &Uuid, same: &Revisited, number: u32, spot: &Spot) -> bool
    ensures met { IsTrue result → IsToldBy namespace.now same.now number spot.now }
    ensures missed { IsFalse result → IsToldBy namespace.now same.now number spot.now → ⊥ }
{
    if spot.date != same.date {
        return false;
    }
    if spot.uri != same.uri {
        return false;
    }
    let own = id_of(namespace, IdKind::Response, number);
    own == same.id
}

/// Whether a payload of this length agrees with the framing that a head tells.
fn agrees(framing: Option<Framing>, len: u64) -> bool
    ensures { result ≡ agrees_by framing len }
{
    match framing {
        None => false,
        Some(Framing::Empty) => true,
        Some(Framing::Length(n)) => n == len,
        Some(Framing::Chunked) => true,
        Some(Framing::ToEnd) => true,
    }
}

/// Whether a payload of this length agrees with the head of a revisit.
fn agrees_with(alloc: Global, stored: &Stored, len: u64) -> Result<bool, Memory>
    ensures { IfOk result (Agrees stored.now.method stored.now.head len) }
{
    let framing = framing_behind(alloc, stored.method.as_slice(), stored.head.as_slice())?;
    Ok(agrees(framing, len))
}

/// The length that a group tells of its payload, where it refers to no record and wasn't cut.
fn whole_len_of(outline: &Outline) -> Option<u64>
    ensures { result ≡ whole_len_by outline.now.same outline.now.cut outline.now.payload_len }
{
    match &outline.same {
        Some(_) => None,
        None => match outline.cut {
            true => None,
            false => Some(outline.payload_len),
        },
    }
}

/// The same of a group of which this digest is kept.
fn len_of(number: u32, kept: Digest, outline: &Outline) -> Result<Option<u64>, PieceFault>
    ensures { IsLengthOf number kept outline.now.digest outline.now.same outline.now.cut outline.now.payload_len result }
{
    let found = outline.digest;
    let _long = outline.payload_len;
    if found != kept {
        return Err(PieceFault::Damaged {
            number,
            kept,
            found: Some(found),
        });
    }
    Ok(whole_len_of(outline))
}

/// The same by what was read of a capture of which this digest is kept.
fn len_in(number: u32, kept: Digest, read: KeptGroup) -> Result<Option<u64>, PieceFault>
    ensures { IsLengthIn number kept read result }
{
    match read {
        KeptGroup::Right { bytes: _, outline } => len_of(number, kept, &outline),
        KeptGroup::Damaged => Err(PieceFault::Damaged {
            number,
            kept,
            found: None,
        }),
    }
}

/// The length of the payload of a capture, if it keeps its whole wire. Its group is read.
fn whole_len<D: Disk>(
    told: &Shown<bool>,
    alloc: Global,
    volumes: &mut Volumes<D>,
    spots: &[Spot],
    number: u32,
) -> Result<Option<u64>, PieceFault>
    requires readable { CanReadBy D.Disk told.now.value volumes.old.journal (book_of volumes.old.held) spots.now }
    requires below { number < length spots.now }
    ensures asks { AsksLength told.now.value (book_of volumes.old.held) number result }
    ensures tells { (spot : SpotValue) → slice_get spots.now number ≡ Some spot
        → IfOk result (λ found. IfSome found (TellsSoLong (book_of volumes.old.held).namespace number spot.digest)) }
    ensures reads { OnlyReads D.Disk volumes.old volumes.new }
    ensures faults { CountsIf (is_take_fault result) (D.faults (disk_of volumes.old.journal)) (D.faults (disk_of volumes.new.journal)) }
{
    let kept = spots[number as usize].digest;
    let read = read_group(told, alloc, volumes, spots, number)?;
    len_in(number, kept, read)
}

/// Whether the capture with this number is the one to which a group refers, whose record is this.
fn is_original<D: Disk>(
    told: &Shown<bool>,
    alloc: Global,
    volumes: &mut Volumes<D>,
    spots: &[Spot],
    number: u32,
    group: &Group,
    same: &Revisited,
) -> Result<bool, PieceFault>
    requires readable { CanReadBy D.Disk told.now.value volumes.old.journal (book_of volumes.old.held) spots.now }
    requires below { number < length spots.now }
    requires digest { (spot : SpotValue) → slice_get spots.now number ≡ Some spot → spot.digest ≡ group.now.digest }
    requires group { IsNextGroup (book_of volumes.old.held) group.now }
    requires same { group.now.same ≡ Some same.now }
    ensures asks { AsksOriginal told.now.value (book_of volumes.old.held) group.now number result }
    ensures reads { OnlyReads D.Disk volumes.old volumes.new }
    ensures faults { CountsIf (is_take_fault result) (D.faults (disk_of volumes.old.journal)) (D.faults (disk_of volumes.new.journal)) }
{
    if !is_named(
        &volumes.held.namespace,
        same,
        number,
        &spots[number as usize],
    ) {
        return Ok(false);
    }
    match whole_len(told, alloc, volumes, spots, number)? {
        Some(len) => {
            let does = agrees_with(alloc, &group.stored, len)?;
            Ok(does)
        }
        None => Ok(false),
    }
}

/// The first of the candidates to which a group refers, whose record is this.
fn first_original<D: Disk>(
    told: &Shown<bool>,
    alloc: Global,
    volumes: &mut Volumes<D>,
    spots: &[Spot],
    candidates: &[u32],
    group: &Group,
    same: &Revisited,
) -> Result<Option<u32>, PieceFault>
    requires readable { CanReadBy D.Disk told.now.value volumes.old.journal (book_of volumes.old.held) spots.now }
    requires made { IsFalse told.now.value → AreHeldWhole (book_of volumes.old.held) spots.now }
    requires whole { MayBeWhole spots.now candidates.now }
    requires digest { HaveDigest spots.now candidates.now group.now.digest }
    requires group { IsNextGroup (book_of volumes.old.held) group.now }
    requires same { group.now.same ≡ Some same.now }
    ensures chooses { ChoosesOriginal told.now.value (book_of volumes.old.held) group.now candidates.now result }
    ensures kept { IfOk result (λ found. IfSome found (IsKeptWith spots.now group.now.digest)) }
    ensures reads { OnlyReads D.Disk volumes.old volumes.new }
    ensures faults { CountsIf (is_take_fault result) (D.faults (disk_of volumes.old.journal)) (D.faults (disk_of volumes.new.journal)) }
{
    for candidate in candidates {
        let is = is_original(told, alloc, volumes, spots, *candidate, group, same)?;
        if is {
            return Ok(Some(*candidate));
        }
    }
    Ok(None)
}

/// The capture to which a group refers, if it refers to any, of those whose spots and whose table these are.
pub fn original_of<D: Disk>(
    told: &Shown<bool>,
    alloc: Global,
    volumes: &mut Volumes<D>,
    spots: &[Spot],
    table: &Digests,
    group: &Group,
) -> Result<Option<u32>, PieceFault>
    requires readable { CanReadBy D.Disk told.now.value volumes.old.journal (book_of volumes.old.held) spots.now }
    requires made { IsFalse told.now.value → AreHeldWhole (book_of volumes.old.held) spots.now }
    requires table { table.now.kept ≡ whole_from 0 spots.now }
    requires group { IsNextGroup (book_of volumes.old.held) group.now }
    ensures finds { FindsOriginal told.now.value (book_of volumes.old.held) group.now result }
    ensures kept { IfOk result (λ found. IfSome found (IsKeptWith spots.now group.now.digest)) }
    ensures reads { OnlyReads D.Disk volumes.old volumes.new }
    ensures faults { CountsIf (is_take_fault result) (D.faults (disk_of volumes.old.journal)) (D.faults (disk_of volumes.new.journal)) }
{
    let Some(same) = &group.same else {
        return Ok(None);
    };
    let candidates = table.candidates(&group.digest);
    match first_original(told, alloc, volumes, spots, candidates, group, same)? {
        Some(first) => Ok(Some(first)),
        None => Err(PieceFault::NotAPiece),
    }
}
