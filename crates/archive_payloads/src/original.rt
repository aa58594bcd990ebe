//! What a revisit refers to of which a line alone told, found by its record.
ghost use Rattle.std.specs.Prelude.{◌≡◌, ℕ, List, IfOk, IfSome, IsFalse, IsTrue, Some, slice_get};
ghost use Rattle.sha1.specs.Sha1.{sha1};
ghost use Rattle.warc_journal.specs.Journals.{disk_of};
ghost use Rattle.archive_shelf.specs.Answers.{CountsIf};
ghost use Rattle.archive_shelf.specs.Comparing.{KeepsWire};
ghost use Rattle.archive_reading.specs.Bringing.{OnlyReads, is_read_fault};
ghost use Rattle.archive_volumes.specs.Volumes.{CanReadBy};
ghost use Rattle.archive_volumes.specs.Spots.{MayBeWhole, MayBeWholeAt};
ghost use Rattle.archive_volumes.specs.Held.{book_of};
ghost use Rattle.archive_reading.specs.Rereading.{HasItsPayload, HaveDigest, IsFirstTold, IsToldBy, TellsOf, id_of_response, right_by, whole_by};
ghost use Rattle.archive_volumes.specs.declared.spot.Spot.{Spot as SpotValue};

use archive_reading::{ReadBack, ReadFault, Reread, read_back, reread_group};
use archive_volumes::{Spot, Volumes};
use capture::Bytes;
use disk_model::Disk;
use shown::Shown;
use std::alloc::Global;
use uuid::Uuid;
use warc_scan::Revisited;
use warc_text::{IdKind, id_of};

/// Whether a revisit's record tells of the capture with this number: its target, its date and the id of its record.
fn is_told_by(namespace: &Uuid, same: &Revisited, number: u32, spot: &Spot) -> bool
    ensures met { IsTrue result → IsToldBy namespace.now same.now number spot.now }
    ensures missed { IsFalse result → IsToldBy namespace.now same.now number spot.now → ⊥ }
{
    if spot.date != same.date {
        return false;
    }
    if spot.uri != same.uri {
        return false;
    }
    let own = id_of(namespace, IdKind::Response, number);
    own == same.id
}

/// The payload of a capture as its group tells it, if it keeps its whole wire.
fn whole_of(read: Reread) -> Option<Bytes>
    ensures { result ≡ whole_by read }
{
    match read {
        Reread::Own {
            head: _,
            payload,
            cut: false,
        } => Some(payload),
        Reread::Own {
            head: _,
            payload: _,
            cut: true,
        } => None,
        Reread::Same { head: _, same: _ } => None,
        Reread::Damaged(_) => None,
    }
}

/// The payload that was read back, if it has its digest.
fn right_of(read: ReadBack) -> Option<Bytes>
    ensures { result ≡ right_by read }
{
    match read {
        ReadBack::Right { head: _, payload } => Some(payload),
        ReadBack::Damaged(_) => None,
    }
}

/// The payload of a capture that keeps its whole wire, or may do so; none where it doesn't, or where that is damaged.
fn whole_payload<D: Disk>(
    told: &Shown<bool>,
    alloc: Global,
    volumes: &mut Volumes<D>,
    spots: &[Spot],
    number: u32,
) -> Result<Option<Bytes>, ReadFault>
    requires readable { CanReadBy D.Disk told.now.value volumes.old.journal (book_of volumes.old.held) spots.now }
    requires whole { MayBeWholeAt spots.now number }
    ensures kept { (spot : SpotValue) → slice_get spots.now number ≡ Some spot
        → IfOk result (λ found. IfSome found (λ payload. sha1 payload ≡ spot.digest)) }
    ensures right { IsTrue told.now.value → KeepsWire (book_of volumes.old.held) number → IfOk result (HasItsPayload (book_of volumes.old.held) number) }
    ensures reads { OnlyReads D.Disk volumes.old volumes.new }
    ensures faults { CountsIf (is_read_fault result) (D.faults (disk_of volumes.old.journal)) (D.faults (disk_of volumes.new.journal)) }
{
    let spot = &spots[number as usize];
    if spot.form.is_told() {
        let read = reread_group(told, alloc, volumes, spots, number)?;
        return Ok(whole_of(read));
    }
    let back = read_back(alloc, volumes, spot)?;
    Ok(right_of(back))
}

/// The payload of a candidate, if a revisit's record tells of it, and it keeps its whole wire.
fn told_payload<D: Disk>(
    told: &Shown<bool>,
    alloc: Global,
    volumes: &mut Volumes<D>,
    spots: &[Spot],
    number: u32,
    same: &Revisited,
) -> Result<Option<Bytes>, ReadFault>
    requires readable { CanReadBy D.Disk told.now.value volumes.old.journal (book_of volumes.old.held) spots.now }
    requires whole { MayBeWholeAt spots.now number }
    ensures kept { (spot : SpotValue) → slice_get spots.now number ≡ Some spot
        → IfOk result (λ found. IfSome found (λ payload. sha1 payload ≡ spot.digest)) }
    ensures met { IfOk result (λ found. IfSome found (λ payload. id_of_response (book_of volumes.old.held).namespace number ≡ same.now.id)) }
    ensures right { IsTrue told.now.value → KeepsWire (book_of volumes.old.held) number → TellsOf (book_of volumes.old.held) number same.now
        → IfOk result (HasItsPayload (book_of volumes.old.held) number) }
    ensures reads { OnlyReads D.Disk volumes.old volumes.new }
    ensures faults { CountsIf (is_read_fault result) (D.faults (disk_of volumes.old.journal)) (D.faults (disk_of volumes.new.journal)) }
{
    if is_told_by(
        &volumes.held.namespace,
        same,
        number,
        &spots[number as usize],
    ) {
        return whole_payload(told, alloc, volumes, spots, number);
    }
    Ok(None)
}

/// The payload of the first of the candidates of which a revisit's record tells, and which turns out to keep its whole wire.
pub fn original_payload<D: Disk>(
    told: &Shown<bool>,
    alloc: Global,
    volumes: &mut Volumes<D>,
    spots: &[Spot],
    candidates: &[u32],
    same: &Revisited,
) -> Result<Option<Bytes>, ReadFault>
    requires readable { CanReadBy D.Disk told.now.value volumes.old.journal (book_of volumes.old.held) spots.now }
    requires whole { MayBeWhole spots.now candidates.now }
    ensures kept { (digest : List ℕ) → HaveDigest spots.now candidates.now digest
        → IfOk result (λ found. IfSome found (λ payload. sha1 payload ≡ digest)) }
    ensures right { IsTrue told.now.value → (first : ℕ) → IsFirstTold (book_of volumes.old.held) same.now candidates.now first
        → IfOk result (HasItsPayload (book_of volumes.old.held) first) }
    ensures reads { OnlyReads D.Disk volumes.old volumes.new }
    ensures faults { CountsIf (is_read_fault result) (D.faults (disk_of volumes.old.journal)) (D.faults (disk_of volumes.new.journal)) }
{
    for candidate in candidates {
        let found = told_payload(told, alloc, volumes, spots, *candidate, same)?;
        match found {
            Some(payload) => return Ok(Some(payload)),
            None => (),
        }
    }
    Ok(None)
}
