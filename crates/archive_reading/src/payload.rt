//! The payload of a capture that keeps its wire, as the disk has it.
ghost use Rattle.std.specs.Prelude.{◌≡◌, ℕ, ◌+◌, ◌^◌, ◌<◌, true, IsTrue, IfOk, IfSome};
ghost use Rattle.warc_journal.specs.Journals.{IsInStep, disk_of, texts};
ghost use Rattle.archive_shelf.specs.Answers.{CountsIf};
ghost use Rattle.archive_reading.specs.Bringing.{FindsThere, IsChecked, IsKept, IsReadRight, OnlyReads, checked_by, is_read_fault, payload_by};
ghost use Rattle.archive_reading.specs.Decoding.{HoldsPayload, IsHead, IsHeadAt};
ghost use Rattle.archive_volumes.specs.Held.{book_of};
ghost use Rattle.archive_volumes.specs.Spots.{HasPlace, head_in, is_cut_form, wire_in};

use crate::decode::{framing_behind, is_response_head, payload_in};
use crate::part::{ReadFault, read_part};
use archive_volumes::{Spot, Volumes};
use capture::{Bytes, Digest, Framing};
use digest32::payload_digest;
use disk_model::Disk;
use std::alloc::Global;

/// A capture that keeps its wire, as it was read.
#[derive(Drop)]
pub enum ReadBack {
    /// Its head, and its payload, which has the digest that is kept.
    Right { head: Bytes, payload: Bytes },
    /// The payload has this other digest, or there is none (`None`), since head and wire don't decode.
    Damaged(Option<Digest>),
}

/// The payload where its digest is the one that is kept.
fn checked(kept: &Digest, head: Bytes, found: Option<Bytes>) -> ReadBack
    ensures { result ≡ checked_by kept.now head found }
{
    match found {
        None => ReadBack::Damaged(None),
        Some(payload) => {
            let digest = payload_digest(payload.as_slice());
            if digest == *kept {
                ReadBack::Right { head, payload }
            } else {
                ReadBack::Damaged(Some(digest))
            }
        }
    }
}

/// The payload that was read, where it has its digest; or the digest that it has, and none where nothing decodes.
pub fn payload_of(read: ReadBack) -> Result<Bytes, Option<Digest>>
    ensures { result ≡ payload_by read }
{
    match read {
        ReadBack::Right { head: _, payload } => Ok(payload),
        ReadBack::Damaged(found) => Err(found),
    }
}

/// The head of a capture, if what stands in its place is one.
pub fn read_head<D: Disk>(
    alloc: Global,
    volumes: &mut Volumes<D>,
    spot: &Spot,
) -> Result<Option<Bytes>, ReadFault>
    requires in_step { IsTrue D.tells → IsInStep D.Disk volumes.old.journal }
    requires place { IsTrue D.tells → HasPlace (texts D.Disk volumes.old.journal) spot.now }
    ensures parsed { IfOk result (λ found. IfSome found (λ head. IsHead head true)) }
    ensures head { IsTrue D.tells → IfOk result (IsHeadAt (head_in (texts D.Disk volumes.old.journal) spot.now)) }
    ensures reads { OnlyReads D.Disk volumes.old volumes.new }
    ensures faults { CountsIf (is_read_fault result) (D.faults (disk_of volumes.old.journal)) (D.faults (disk_of volumes.new.journal)) }
{
    let head = read_part(alloc, volumes, spot.head_place())?;
    let is_head = is_response_head(alloc, head.as_slice())?;
    if is_head {
        return Ok(Some(Bytes::of(head)));
    }
    Ok(None)
}

/// The payload of the wire that is kept of a capture, by its framing; none where it isn't a body of that framing.
pub fn read_payload<D: Disk>(
    alloc: Global,
    volumes: &mut Volumes<D>,
    spot: &Spot,
    framing: Framing,
) -> Result<Option<Bytes>, ReadFault>
    requires in_step { IsTrue D.tells → IsInStep D.Disk volumes.old.journal }
    requires place { IsTrue D.tells → HasPlace (texts D.Disk volumes.old.journal) spot.now }
    requires ends { spot.now.head_at + spot.now.head_len + spot.now.wire_len < 2 ^ 62 }
    ensures payload { IsTrue D.tells → IfOk result
        (HoldsPayload (is_cut_form spot.now.form) framing (wire_in (texts D.Disk volumes.old.journal) spot.now)) }
    ensures reads { OnlyReads D.Disk volumes.old volumes.new }
    ensures faults { CountsIf (is_read_fault result) (D.faults (disk_of volumes.old.journal)) (D.faults (disk_of volumes.new.journal)) }
{
    let wire = read_part(alloc, volumes, spot.wire_place())?;
    Ok(payload_in(alloc, framing, wire, spot.form.is_cut())?)
}

/// A capture that keeps its wire: its head, and its payload, whose digest is compared with the one that is kept.
pub fn read_back<D: Disk>(
    alloc: Global,
    volumes: &mut Volumes<D>,
    spot: &Spot,
) -> Result<ReadBack, ReadFault>
    requires in_step { IsTrue D.tells → IsInStep D.Disk volumes.old.journal }
    requires place { IsTrue D.tells → HasPlace (texts D.Disk volumes.old.journal) spot.now }
    requires ends { spot.now.head_at + spot.now.head_len + spot.now.wire_len < 2 ^ 62 }
    ensures checked { IfOk result (IsChecked spot.now.digest) }
    ensures right { (number : ℕ) → IsTrue D.tells
        → IsKept (texts D.Disk volumes.old.journal) (book_of volumes.old.held) number spot.now
        → IfOk result (IsReadRight (book_of volumes.old.held) number) }
    ensures found { IsTrue D.tells → IfOk result (FindsThere (texts D.Disk volumes.old.journal) spot.now) }
    ensures reads { OnlyReads D.Disk volumes.old volumes.new }
    ensures faults { CountsIf (is_read_fault result) (D.faults (disk_of volumes.old.journal)) (D.faults (disk_of volumes.new.journal)) }
{
    let head = read_part(alloc, volumes, spot.head_place())?;
    let framing = match framing_behind(alloc, spot.method.as_slice(), head.as_slice())? {
        Some(framing) => framing,
        None => return Ok(ReadBack::Damaged(None)),
    };
    let found = read_payload(alloc, volumes, spot, framing)?;
    Ok(checked(&spot.digest, Bytes::of(head), found))
}
