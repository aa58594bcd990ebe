//! A capture by its number, with its payload.
ghost use Rattle.std.specs.Prelude.{◌≡◌, ◌<◌, false, true, IsTrue, IfErr, IfOk, Err, None, Some, length, slice_get};
ghost use Rattle.std.specs.List.Sorted.{IsStrictlyIncreasing};
ghost use Rattle.revisit_table.specs.Table.{numbers_of};
ghost use Rattle.warc_journal.specs.Journals.{disk_of, texts};
ghost use Rattle.archive_shelf.specs.Answers.{CountsIf, NamesKeeper, is_bring_fault};
ghost use Rattle.archive_shelf.specs.Digests.{GoesByDigest};
ghost use Rattle.archive_shelf.specs.declared.fault.BringFault.TheVariants.{Damaged as DamagedAt};
ghost use Rattle.archive_reading.specs.Bringing.{BringsFrom, OnlyReads, brought_of};
ghost use Rattle.archive_volumes.specs.Volumes.{CanReadBy};
ghost use Rattle.archive_payloads.specs.Damage.{TellsFound};
ghost use Rattle.archive_reading.specs.Digests.{BringsDigest, GoesByKeeper, GoesByKept, GoesByLine, GoesByOwn};
ghost use Rattle.archive_volumes.specs.Held.{book_of};
ghost use Rattle.archive_reading.specs.Rereading.{IsBroughtThere};
ghost use Rattle.archive_volumes.specs.Spots.{is_same_form, whole_from};
ghost use Rattle.archive_volumes.specs.declared.spot.Form.TheVariants as forms;
ghost use Rattle.archive_volumes.specs.declared.spot.Spot.{Spot as SpotValue};

use crate::original::original_payload;
use archive_reading::{ReadBack, payload_of, read_head, read_own, reread_group, revisit_in};
use archive_shelf::BringFault;
use archive_volumes::{Spot, Volumes};
use capture::{Brought, Bytes, Digest, Memory};
use disk_model::Disk;
use revisit_table::Digests;
use shown::Shown;
use std::alloc::Global;

/// The capture with its head and its payload.
fn brought(spot: &Spot, alloc: Global, head: Bytes, payload: Bytes) -> Result<Brought, Memory>
    ensures { IfOk result (λ brought. brought ≡ brought_of spot.now head payload) }
{
    Ok(Brought {
        method: spot.method.to_text(alloc)?,
        uri: spot.uri.copy()?,
        date: spot.date,
        head,
        payload,
    })
}

/// The answer where the records of a revisit aren't what a line told of it, or where what it refers to isn't there.
fn not_as_told(number: u32, kept: Digest) -> Result<Brought, BringFault>
    ensures { result ≡ Err (DamagedAt number kept None) }
{
    Err(BringFault::Damaged {
        number,
        kept,
        found: None,
    })
}

/// Brings a capture that keeps its wire.
fn bring_own<D: Disk>(
    told: &Shown<bool>,
    alloc: Global,
    volumes: &mut Volumes<D>,
    spots: &[Spot],
    number: u32,
) -> Result<Brought, BringFault>
    requires readable { CanReadBy D.Disk told.now.value volumes.old.journal (book_of volumes.old.held) spots.now }
    requires below { number < length spots.now }
    requires own { (spot : SpotValue) → slice_get spots.now number ≡ Some spot → is_same_form spot.form ≡ false }
    ensures brings { BringsFrom told.now.value (book_of volumes.old.held) number result }
    ensures digest { (spot : SpotValue) → slice_get spots.now number ≡ Some spot → GoesByOwn number spot.digest result }
    ensures there { IsTrue D.tells → (spot : SpotValue) → slice_get spots.now number ≡ Some spot
        → IfOk result (IsBroughtThere (texts D.Disk volumes.old.journal) (book_of volumes.old.held).namespace number spot) }
    ensures found { IsTrue D.tells → IfErr result
        (TellsFound (texts D.Disk volumes.old.journal) (book_of volumes.old.held).namespace spots.now number) }
    ensures reads { OnlyReads D.Disk volumes.old volumes.new }
    ensures faults { CountsIf (is_bring_fault result) (D.faults (disk_of volumes.old.journal)) (D.faults (disk_of volumes.new.journal)) }
{
    let spot = &spots[number as usize];
    let read = read_own(told, alloc, volumes, spots, number)?;
    match read {
        ReadBack::Right { head, payload } => Ok(brought(spot, alloc, head, payload)?),
        ReadBack::Damaged(found) => Err(BringFault::Damaged {
            number,
            kept: spot.digest,
            found,
        }),
    }
}

/// Brings a capture of which another one, the keeper, has the payload. The head is the capture's own; damage of that is told
/// under its own number, by the digest of the payload. A keeper with another digest isn't read.
fn bring_same<D: Disk>(
    told: &Shown<bool>,
    alloc: Global,
    volumes: &mut Volumes<D>,
    spots: &[Spot],
    number: u32,
    first: u32,
) -> Result<Brought, BringFault>
    requires readable { CanReadBy D.Disk told.now.value volumes.old.journal (book_of volumes.old.held) spots.now }
    requires below { number < length spots.now }
    requires form { (spot : SpotValue) → slice_get spots.now number ≡ Some spot → spot.form ≡ forms.Same first }
    ensures brings { BringsFrom told.now.value (book_of volumes.old.held) number result }
    ensures digest { (keeper : SpotValue) → slice_get spots.now first ≡ Some keeper → GoesByKeeper number first keeper.digest result }
    ensures own { (spot : SpotValue) → slice_get spots.now number ≡ Some spot → BringsDigest spot.digest result }
    ensures found { IsTrue D.tells → IfErr result
        (TellsFound (texts D.Disk volumes.old.journal) (book_of volumes.old.held).namespace spots.now number) }
    ensures reads { OnlyReads D.Disk volumes.old volumes.new }
    ensures faults { CountsIf (is_bring_fault result) (D.faults (disk_of volumes.old.journal)) (D.faults (disk_of volumes.new.journal)) }
{
    let spot = &spots[number as usize];
    let keeper = &spots[first as usize];
    if keeper.digest != spot.digest {
        return Err(BringFault::Damaged {
            number: first,
            kept: keeper.digest,
            found: Some(spot.digest),
        });
    }
    let head = match read_head(alloc, volumes, spot)? {
        Some(head) => head,
        None => {
            return Err(BringFault::Damaged {
                number,
                kept: keeper.digest,
                found: None,
            });
        }
    };
    let read = read_own(told, alloc, volumes, spots, first)?;
    match payload_of(read) {
        Ok(payload) => Ok(brought(spot, alloc, head, payload)?),
        Err(found) => Err(BringFault::Damaged {
            number: first,
            kept: keeper.digest,
            found,
        }),
    }
}

/// Brings a revisit of which a line alone told. Which capture it refers to is found by its record, among those that have its digest and
/// may keep their whole wire. Damage is told under its own number.
fn bring_told<D: Disk>(
    told: &Shown<bool>,
    alloc: Global,
    volumes: &mut Volumes<D>,
    spots: &[Spot],
    candidates: &[u32],
    number: u32,
) -> Result<Brought, BringFault>
    requires readable { CanReadBy D.Disk told.now.value volumes.old.journal (book_of volumes.old.held) spots.now }
    requires below { number < length spots.now }
    requires form { (spot : SpotValue) → slice_get spots.now number ≡ Some spot → spot.form ≡ forms.Told true }
    requires candidates { (spot : SpotValue) → slice_get spots.now number ≡ Some spot
        → candidates.now ≡ numbers_of spot.digest (whole_from 0 spots.now) }
    requires rising { IsStrictlyIncreasing candidates.now }
    ensures brings { BringsFrom told.now.value (book_of volumes.old.held) number result }
    ensures digest { (spot : SpotValue) → slice_get spots.now number ≡ Some spot → GoesByLine number spot.digest result }
    ensures there { IsTrue D.tells → (spot : SpotValue) → slice_get spots.now number ≡ Some spot
        → IfOk result (IsBroughtThere (texts D.Disk volumes.old.journal) (book_of volumes.old.held).namespace number spot) }
    ensures reads { OnlyReads D.Disk volumes.old volumes.new }
    ensures faults { CountsIf (is_bring_fault result) (D.faults (disk_of volumes.old.journal)) (D.faults (disk_of volumes.new.journal)) }
{
    let spot = &spots[number as usize];
    let read = reread_group(told, alloc, volumes, spots, number)?;
    let revisit = match revisit_in(read) {
        Some(revisit) => revisit,
        None => return not_as_told(number, spot.digest),
    };
    let found = original_payload(told, alloc, volumes, spots, candidates, &revisit.same)?;
    match found {
        Some(payload) => Ok(brought(spot, alloc, revisit.head, payload)?),
        None => not_as_told(number, spot.digest),
    }
}

/// Brings the capture with this number, of those whose spots these are, and whose table this is.
pub fn bring<D: Disk>(
    told: &Shown<bool>,
    alloc: Global,
    volumes: &mut Volumes<D>,
    spots: &[Spot],
    table: &Digests,
    number: u32,
) -> Result<Brought, BringFault>
    requires readable { CanReadBy D.Disk told.now.value volumes.old.journal (book_of volumes.old.held) spots.now }
    requires below { number < length spots.now }
    requires table { table.now.kept ≡ whole_from 0 spots.now }
    ensures brings { BringsFrom told.now.value (book_of volumes.old.held) number result }
    ensures names { NamesKeeper (book_of volumes.old.held) number result }
    ensures kept { GoesByKept spots.now number result }
    ensures own { (spot : SpotValue) → slice_get spots.now number ≡ Some spot → BringsDigest spot.digest result }
    ensures there { IsTrue D.tells → (spot : SpotValue) → slice_get spots.now number ≡ Some spot
        → IfOk result (IsBroughtThere (texts D.Disk volumes.old.journal) (book_of volumes.old.held).namespace number spot) }
    ensures found { IsTrue D.tells → IfErr result
        (TellsFound (texts D.Disk volumes.old.journal) (book_of volumes.old.held).namespace spots.now number) }
    ensures digests { GoesByDigest (book_of volumes.old.held) number result }
    ensures reads { OnlyReads D.Disk volumes.old volumes.new }
    ensures faults { CountsIf (is_bring_fault result) (D.faults (disk_of volumes.old.journal)) (D.faults (disk_of volumes.new.journal)) }
{
    let spot = &spots[number as usize];
    if !spot.form.is_same() {
        return bring_own(told, alloc, volumes, spots, number);
    }
    match spot.form.keeper() {
        Some(first) => bring_same(told, alloc, volumes, spots, number, first),
        None => {
            let candidates = table.candidates(&spot.digest);
            bring_told(told, alloc, volumes, spots, candidates, number)
        }
    }
}
