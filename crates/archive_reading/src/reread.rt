//! A capture of which a line alone told, read whole by its place.
ghost use Rattle.std.specs.Prelude.{◌≡◌, ◌<◌, ◌^◌, ℕ, List, IfOk, IsFalse, IsTrue, Some, false, true, length, slice_get};
ghost use Rattle.capture.specs.Captures.{HasPayload};
ghost use Rattle.warc_journal.specs.Journals.{disk_of, texts};
ghost use Rattle.warc_scan.specs.Groups.{IsGroup};
ghost use Rattle.warc_scan.specs.declared.group.Revisited.{Revisited as RevisitedValue};
ghost use Rattle.archive_shelf.specs.Answers.{CountsIf};
ghost use Rattle.archive_reading.specs.Bringing.{IsChecked, IsReadRight, OnlyReads, is_read_fault};
ghost use Rattle.archive_volumes.specs.Volumes.{CanReadBy};
ghost use Rattle.archive_volumes.specs.Held.{book_of};
ghost use Rattle.archive_reading.specs.Rereading.{IsBackThere, IsReread, IsRereadBy, IsRereadIn, IsRereadOf, IsRereadThere, IsStoredOf, IsToldOf, own_by, revisit_by};
ghost use Rattle.archive_volumes.specs.Spots.{is_same_form};
ghost use Rattle.archive_reading.specs.declared.reread.Reread.TheVariants.{Own as OwnRead, Same as SameRead};
ghost use Rattle.archive_volumes.specs.declared.spot.Spot.{Spot as SpotValue};

use crate::decode::{framing_behind, payload_in};
use crate::kept_group::read_text;
use crate::part::ReadFault;
use crate::payload::{ReadBack, read_back};
use archive_volumes::{Spot, Volumes, form_kept};
use capture::{Bytes, Digest, Kept, Memory, Stored, Text};
use disk_model::Disk;
use shown::Shown;
use std::alloc::Global;
use uuid::Uuid;
use warc_scan::{Group, GroupStep, Revisited, next_group};

/// A capture, as its group tells it.
#[derive(Drop)]
pub enum Reread {
    /// It keeps its wire: its head, and its payload, which has the digest that is kept; and whether the response was cut.
    Own {
        head: Bytes,
        payload: Bytes,
        cut: bool,
    },
    /// Another capture keeps its payload: its head, and the record that it refers to.
    Same {
        head: Bytes,
        same: Revisited,
    },
    /// Its group tells this other digest; or no group with its number stands there, or one of another target, date or method, or which is a
    /// revisit where it isn't to be one (`None`).
    Damaged(Option<Digest>),
}

/// A revisit, as its group tells it: its head, and the record that it refers to.
#[derive(Drop)]
pub struct Revisit {
    pub head: Bytes,
    pub same: Revisited,
}

/// A capture that keeps its wire, whole or cut, which has a payload.
fn own(alloc: Global, method: &Text, head: Bytes, wire: Bytes, cut: bool) -> Result<Reread, Memory>
    requires has { (payload : List ℕ) × HasPayload cut method.now head wire payload }
    requires short { length wire < 2 ^ 64 }
    ensures { (payload : List ℕ) → HasPayload cut method.now head wire payload → IfOk result (λ read. read ≡ OwnRead head payload cut) }
{
    let framing = match framing_behind(alloc, method.as_slice(), head.as_slice())? {
        Some(framing) => framing,
        None => unreachable!(),
    };
    let found = payload_in(alloc, framing, wire.into_vec(), cut)?;
    match found {
        Some(payload) => Ok(Reread::Own { head, payload, cut }),
        None => unreachable!(),
    }
}

/// Whether this is kept of a capture that was stored, but for the digest.
fn is_stored_of(stored: &Stored, spot: &Spot) -> bool
    ensures met { IsTrue result → IsStoredOf stored.now spot.now }
    ensures missed { IsFalse result → IsStoredOf stored.now spot.now → ⊥ }
{
    if stored.date != spot.date {
        return false;
    }
    if stored.uri != spot.uri {
        return false;
    }
    if stored.method.as_slice() != spot.method.as_slice() {
        return false;
    }
    form_kept(&stored.kept).is_same() == spot.form.is_same()
}

/// What a group tells of its capture, if it tells what is kept of that.
fn reread_of(alloc: Global, group: Group, spot: &Spot) -> Result<Reread, Memory>
    requires is { (namespace : List ℕ) × (number : ℕ) × (text : List ℕ) × IsGroup namespace number text group }
    ensures read { IfOk result (IsReread spot.now.digest) }
    ensures by { IfOk result (IsRereadBy group spot.now) }
{
    let found = group.digest;
    if found != spot.digest {
        drop(group);
        return Ok(Reread::Damaged(Some(found)));
    }
    if !is_stored_of(&group.stored, spot) {
        drop(group);
        return Ok(Reread::Damaged(None));
    }
    told_of(alloc, group)
}

/// What a group tells of its capture.
fn told_of(alloc: Global, group: Group) -> Result<Reread, Memory>
    requires is { (namespace : List ℕ) × (number : ℕ) × (text : List ℕ) × IsGroup namespace number text group }
    ensures read { IfOk result (IsReread group.digest) }
    ensures tells { IfOk result (IsToldOf group) }
{
    let Group {
        number: _,
        stored,
        digest: _,
        payload_len: _,
        same,
        head_at: _,
        body_at: _,
        first_len: _,
        len: _,
    } = group;
    let Stored {
        method,
        uri: _,
        date: _,
        request: _,
        head,
        kept: wire,
    } = stored;
    match wire {
        Kept::Wire(wire) => own(alloc, &method, head, wire, false),
        Kept::Same(_) => Ok(revisit_of(head, same)),
        Kept::Cut(wire) => own(alloc, &method, head, wire, true),
    }
}

/// A capture whose payload another one keeps.
fn revisit_of(head: Bytes, same: Option<Revisited>) -> Reread
    ensures { (revisited : RevisitedValue) → same ≡ Some revisited → result ≡ SameRead head revisited }
{
    match same {
        Some(same) => Reread::Same { head, same },
        None => Reread::Damaged(None),
    }
}

/// What the group with this number tells with which the bytes begin.
fn reread_in(
    alloc: Global,
    bytes: &[u8],
    namespace: &Uuid,
    number: u32,
    spot: &Spot,
) -> Result<Reread, Memory>
    ensures read { IfOk result (IsReread spot.now.digest) }
    ensures by { IfOk result (IsRereadIn namespace.now number bytes.now spot.now) }
{
    match next_group(alloc, bytes, false, namespace, number) {
        GroupStep::Group(group) => reread_of(alloc, group, spot),
        GroupStep::End => Ok(Reread::Damaged(None)),
        GroupStep::Unfinished => Ok(Reread::Damaged(None)),
        GroupStep::Damaged => Ok(Reread::Damaged(None)),
        // All the bytes are there.
        GroupStep::Need(_) => unreachable!(),
        GroupStep::Memory => Err(Memory),
    }
}

/// The revisit that was read, if it is one.
pub fn revisit_in(read: Reread) -> Option<Revisit>
    ensures { result ≡ revisit_by read }
{
    match read {
        Reread::Own {
            head: _,
            payload: _,
            cut: _,
        } => None,
        Reread::Same { head, same } => Some(Revisit { head, same }),
        Reread::Damaged(_) => None,
    }
}

/// What was read of a capture that is to keep its wire.
fn own_read(read: Reread) -> ReadBack
    ensures { result ≡ own_by read }
{
    match read {
        Reread::Own {
            head,
            payload,
            cut: _,
        } => ReadBack::Right { head, payload },
        Reread::Same { head: _, same: _ } => ReadBack::Damaged(None),
        Reread::Damaged(found) => ReadBack::Damaged(found),
    }
}

/// The capture with this number, of those whose spots these are, as its group tells it.
pub fn reread_group<D: Disk>(
    told: &Shown<bool>,
    alloc: Global,
    volumes: &mut Volumes<D>,
    spots: &[Spot],
    number: u32,
) -> Result<Reread, ReadFault>
    requires readable { CanReadBy D.Disk told.now.value volumes.old.journal (book_of volumes.old.held) spots.now }
    requires below { number < length spots.now }
    ensures read { (spot : SpotValue) → slice_get spots.now number ≡ Some spot → IfOk result (IsReread spot.digest) }
    ensures there { IsTrue D.tells → (spot : SpotValue) → slice_get spots.now number ≡ Some spot
        → IfOk result (IsRereadThere (texts D.Disk volumes.old.journal) spots.now (book_of volumes.old.held).namespace number spot) }
    ensures right { IsTrue told.now.value → IfOk result (IsRereadOf (book_of volumes.old.held) number) }
    ensures reads { OnlyReads D.Disk volumes.old volumes.new }
    ensures faults { CountsIf (is_read_fault result) (D.faults (disk_of volumes.old.journal)) (D.faults (disk_of volumes.new.journal)) }
{
    let bytes = read_text(told, alloc, volumes, spots, number)?;
    let spot = &spots[number as usize];
    let read = reread_in(
        alloc,
        bytes.as_slice(),
        &volumes.held.namespace,
        number,
        spot,
    )?;
    Ok(read)
}

/// The head and the payload of a capture that keeps its wire. Its records are read as they stand where a line alone told of it.
pub fn read_own<D: Disk>(
    told: &Shown<bool>,
    alloc: Global,
    volumes: &mut Volumes<D>,
    spots: &[Spot],
    number: u32,
) -> Result<ReadBack, ReadFault>
    requires readable { CanReadBy D.Disk told.now.value volumes.old.journal (book_of volumes.old.held) spots.now }
    requires below { number < length spots.now }
    requires own { (spot : SpotValue) → slice_get spots.now number ≡ Some spot → is_same_form spot.form ≡ false }
    ensures checked { (spot : SpotValue) → slice_get spots.now number ≡ Some spot → IfOk result (IsChecked spot.digest) }
    ensures there { IsTrue D.tells → (spot : SpotValue) → slice_get spots.now number ≡ Some spot
        → IfOk result (IsBackThere (texts D.Disk volumes.old.journal) spots.now (book_of volumes.old.held).namespace number spot) }
    ensures right { IsTrue told.now.value → IfOk result (IsReadRight (book_of volumes.old.held) number) }
    ensures reads { OnlyReads D.Disk volumes.old volumes.new }
    ensures faults { CountsIf (is_read_fault result) (D.faults (disk_of volumes.old.journal)) (D.faults (disk_of volumes.new.journal)) }
{
    let spot = &spots[number as usize];
    if spot.form.is_told() {
        let read = reread_group(told, alloc, volumes, spots, number)?;
        return Ok(own_read(read));
    }
    read_back(alloc, volumes, spot)
}
