//! Which capture has a payload. Candidates are those with its digest; their payloads are compared as the disk has them.
ghost use Rattle.std.specs.Prelude.{◌≡◌, ◌≢◌, ◌↔◌, ℕ, List, [], ◌+◌, ◌^◌, ◌<◌, Option, false, nat_le, filter, IsFalse, IsTrue, IfErr, IfOk, IfSome, None, Some, length, slice_get};
ghost use Rattle.std.specs.List.Sorted.{IsStrictlyIncreasing};
ghost use Rattle.sha1.specs.Sha1.{sha1};
ghost use Rattle.capture.specs.Body.{IsWire};
ghost use Rattle.capture.specs.Payload.{IsPayload};
ghost use Rattle.revisit_table.specs.Table.{numbers_of};
ghost use Rattle.warc_journal.specs.Journals.{IsInStep, disk_of, texts};
ghost use Rattle.archive_shelf.specs.Answers.{CountsIf};
ghost use Rattle.archive_shelf.specs.Comparing.{IsRight};
ghost use Rattle.archive_reading.specs.Bringing.{DecodesThere, IsKept, OnlyReads, is_read_fault};
ghost use Rattle.archive_volumes.specs.Volumes.{CanReadBy};
ghost use Rattle.archive_payloads.specs.Choosing.{Asks, Chooses, Compares, ComparesWith, IsComparison, IsKeptWith, LooksOn, NoneDamagedBelow, OnDamage, OnSame, is_look_fault};
ghost use Rattle.archive_volumes.specs.Spots.{AreHeldWhole, HasPlace, MayBeWhole, MayBeWholeAt, head_in, is_cut_form, whole_from, wire_in};
ghost use Rattle.archive_payloads.specs.Damage.{IsPassedOver, PassesOver, TellsDamage};
ghost use Rattle.archive_reading.specs.Decoding.{Decodes, HoldsDigest, HoldsPayload, digest_in, is_plain as spec_plain};
ghost use Rattle.archive_volumes.specs.Held.{book_of};
ghost use Rattle.archive_reading.specs.Rereading.{IsChosenThere};
ghost use Rattle.archive_volumes.specs.declared.spot.Form.TheVariants as forms;
ghost use Rattle.archive_volumes.specs.declared.spot.Spot.{Spot as SpotValue};

use archive_reading::{
    ReadFault, Reread, framing_behind, is_plain, read_part, read_payload, reread_group,
};
use archive_shelf::{Looked, StoreFault};
use archive_volumes::{Spot, Volumes};
use capture::{Bytes, Digest, Framing};
use digest32::payload_digest;
use disk_model::Disk;
use message_body::Slices;
use shown::Shown;
use std::alloc::Global;
use warc_journal::Place;

/// How much of a wire is read at once to be compared, in bytes.
const PIECE_LEN: usize = 65_536;

/// How the payload of a capture compares with another one.
#[derive(Clone, Copy)]
pub(crate) enum Compared {
    /// It is the same, byte for byte.
    Same,
    /// It is another one.
    Other,
    /// It was read with this digest, which isn't the one that is kept, or nothing decodes (`None`).
    Damaged(Option<Digest>),
}

/// Whether the payload of a whole wire has no bytes.
fn has_no_bytes(framing: Framing, wire: &[u8]) -> bool
    ensures { (payload : List ℕ) → IsPayload false framing wire.now payload → (IsTrue result ↔ (payload ≡ [])) }
{
    let mut slices = Slices::of(framing, wire);
    let first = slices.next();
    first.is_empty()
}

/// Whether the payload of a whole wire is these bytes.
fn has_bytes(framing: Framing, wire: &[u8], bytes: &[u8]) -> bool
    ensures { (payload : List ℕ) → IsPayload false framing wire.now payload → (IsTrue result ↔ (bytes.now ≡ payload)) }
{
    let mut slices = Slices::of(framing, wire);
    let mut rest = bytes;
    'walking: loop {
        let slice = slices.next();
        if slice.is_empty() {
            return rest.is_empty();
        }
        match rest.strip_prefix(slice) {
            Some(behind) => rest = behind,
            None => return false,
        }
    }
}

/// How what was decoded compares with the payload of a whole wire.
fn compare_found(kept: &Digest, found: Option<Bytes>, framing: Framing, wire: &[u8]) -> Compared
    ensures comparison { (payload : List ℕ) → IsPayload false framing wire.now payload → IsComparison kept.now payload result }
    ensures compares { (payload bytes : List ℕ) → IsPayload false framing wire.now payload → found ≡ Some bytes
        → Compares kept.now bytes payload result }
    ensures same { (payload : List ℕ) → IsPayload false framing wire.now payload → OnSame result (found ≡ Some payload) }
    ensures damage { OnDamage result (λ digest. digest ≡ digest_in found) }
{
    match found {
        None => Compared::Damaged(None),
        Some(bytes) => {
            let digest = payload_digest(bytes.as_slice());
            if digest != *kept {
                return Compared::Damaged(Some(digest));
            }
            if has_bytes(framing, wire, bytes.as_slice()) {
                return Compared::Same;
            }
            Compared::Other
        }
    }
}

/// Whether the wire that is kept of a capture has these bytes. It is read in pieces, up to the first that differs.
fn keeps_bytes<D: Disk>(
    alloc: Global,
    volumes: &mut Volumes<D>,
    spot: &Spot,
    bytes: &[u8],
) -> Result<bool, ReadFault>
    requires in_step { IsTrue D.tells → IsInStep D.Disk volumes.old.journal }
    requires place { IsTrue D.tells → HasPlace (texts D.Disk volumes.old.journal) spot.now }
    requires ends { spot.now.head_at + spot.now.head_len + spot.now.wire_len < 2 ^ 62 }
    ensures keeps { IsTrue D.tells → IfOk result (λ same. IsTrue same → wire_in (texts D.Disk volumes.old.journal) spot.now ≡ bytes.now) }
    ensures reads { OnlyReads D.Disk volumes.old volumes.new }
    ensures faults { CountsIf (is_read_fault result) (D.faults (disk_of volumes.old.journal)) (D.faults (disk_of volumes.new.journal)) }
{
    let wire = spot.wire_place();
    if wire.len != bytes.len() as u64 {
        return Ok(false);
    }
    let mut done = 0;
    'comparing: while done < bytes.len() {
        let (_, rest) = bytes.split_at(done);
        let (next, _) = rest.split_at(rest.len().min(PIECE_LEN));
        let place = Place {
            volume: wire.volume,
            at: wire.at + done as u64,
            len: next.len() as u64,
        };
        let piece = read_part(alloc, volumes, place)?;
        if piece.as_slice() != next {
            return Ok(false);
        }
        done += next.len();
    }
    Ok(true)
}

/// Whether the wire that is kept of a capture, of this framing, is framed as another one is and has its bytes. Then
/// both have one payload.
fn keeps_wire<D: Disk>(
    alloc: Global,
    volumes: &mut Volumes<D>,
    spot: &Spot,
    kept: Framing,
    framing: Framing,
    wire: &[u8],
) -> Result<bool, ReadFault>
    requires in_step { IsTrue D.tells → IsInStep D.Disk volumes.old.journal }
    requires place { IsTrue D.tells → HasPlace (texts D.Disk volumes.old.journal) spot.now }
    requires ends { spot.now.head_at + spot.now.head_len + spot.now.wire_len < 2 ^ 62 }
    ensures keeps { IsTrue D.tells → IfOk result (λ same. IsTrue same → (spec_plain kept ≡ spec_plain framing)
        × (wire_in (texts D.Disk volumes.old.journal) spot.now ≡ wire.now)) }
    ensures reads { OnlyReads D.Disk volumes.old volumes.new }
    ensures faults { CountsIf (is_read_fault result) (D.faults (disk_of volumes.old.journal)) (D.faults (disk_of volumes.new.journal)) }
{
    let alike = is_plain(kept) == is_plain(framing);
    if !alike {
        return Ok(false);
    }
    keeps_bytes(alloc, volumes, spot, wire)
}

/// Compares the payload of a whole wire with that of a capture whose wire has this framing, which is read whole.
fn compare_read<D: Disk>(
    alloc: Global,
    volumes: &mut Volumes<D>,
    spot: &Spot,
    kept: Framing,
    framing: Framing,
    wire: &[u8],
) -> Result<Compared, ReadFault>
    requires in_step { IsTrue D.tells → IsInStep D.Disk volumes.old.journal }
    requires place { IsTrue D.tells → HasPlace (texts D.Disk volumes.old.journal) spot.now }
    requires ends { spot.now.head_at + spot.now.head_len + spot.now.wire_len < 2 ^ 62 }
    ensures comparison { (payload : List ℕ) → IsPayload false framing wire.now payload
        → IfOk result (IsComparison spot.now.digest payload) }
    ensures compares { IsTrue D.tells → (payload bytes : List ℕ) → IsPayload false framing wire.now payload
        → ((found : Option (List ℕ)) → HoldsPayload (is_cut_form spot.now.form) kept
        (wire_in (texts D.Disk volumes.old.journal) spot.now) found → found ≡ Some bytes)
        → IfOk result (Compares spot.now.digest bytes payload) }
    ensures same { IsTrue D.tells → (payload : List ℕ) → IsPayload false framing wire.now payload → IfOk result (λ compared. OnSame compared
        (IsPayload (is_cut_form spot.now.form) kept (wire_in (texts D.Disk volumes.old.journal) spot.now) payload)) }
    ensures damage { IsTrue D.tells → IfOk result (λ compared. OnDamage compared
        (HoldsDigest (is_cut_form spot.now.form) kept (wire_in (texts D.Disk volumes.old.journal) spot.now))) }
    ensures reads { OnlyReads D.Disk volumes.old volumes.new }
    ensures faults { CountsIf (is_read_fault result) (D.faults (disk_of volumes.old.journal)) (D.faults (disk_of volumes.new.journal)) }
{
    let found = read_payload(alloc, volumes, spot, kept)?;
    Ok(compare_found(&spot.digest, found, framing, wire))
}

/// Compares the payload of a whole wire with that of a capture which keeps its whole wire. Where both wires are one,
/// nothing is decoded.
fn compare_with<D: Disk>(
    alloc: Global,
    volumes: &mut Volumes<D>,
    spot: &Spot,
    framing: Framing,
    wire: &[u8],
) -> Result<Compared, ReadFault>
    requires in_step { IsTrue D.tells → IsInStep D.Disk volumes.old.journal }
    requires place { IsTrue D.tells → HasPlace (texts D.Disk volumes.old.journal) spot.now }
    requires ends { spot.now.head_at + spot.now.head_len + spot.now.wire_len < 2 ^ 62 }
    requires whole { is_cut_form spot.now.form ≡ false }
    ensures comparison { (payload : List ℕ) → IsPayload false framing wire.now payload
        → IfOk result (IsComparison spot.now.digest payload) }
    ensures compares { (payload : List ℕ) (number : ℕ) → IsPayload false framing wire.now payload → IsTrue D.tells
        → IsKept (texts D.Disk volumes.old.journal) (book_of volumes.old.held) number spot.now
        → IfOk result (ComparesWith (book_of volumes.old.held) number payload) }
    ensures same { IsTrue D.tells → (payload : List ℕ) → IsPayload false framing wire.now payload → IfOk result (λ compared. OnSame compared
        (Decodes false spot.now.method (head_in (texts D.Disk volumes.old.journal) spot.now) (wire_in (texts D.Disk volumes.old.journal) spot.now) payload)) }
    ensures damage { IsTrue D.tells → IfOk result (λ compared. OnDamage compared (DecodesThere (texts D.Disk volumes.old.journal) spot.now)) }
    ensures reads { OnlyReads D.Disk volumes.old volumes.new }
    ensures faults { CountsIf (is_read_fault result) (D.faults (disk_of volumes.old.journal)) (D.faults (disk_of volumes.new.journal)) }
{
    let head = read_part(alloc, volumes, spot.head_place())?;
    let kept = match framing_behind(alloc, spot.method.as_slice(), head.as_slice())? {
        Some(kept) => kept,
        None => return Ok(Compared::Damaged(None)),
    };
    let same = keeps_wire(alloc, volumes, spot, kept, framing, wire)?;
    if same {
        return Ok(Compared::Same);
    }
    compare_read(alloc, volumes, spot, kept, framing, wire)
}

/// Whether a capture of which a line alone told turns out to keep its whole wire, and has the payload of a whole one. It is read whole.
fn has_told_payload<D: Disk>(
    told: &Shown<bool>,
    alloc: Global,
    volumes: &mut Volumes<D>,
    spots: &[Spot],
    number: u32,
    framing: Framing,
    wire: &[u8],
) -> Result<bool, StoreFault>
    requires readable { CanReadBy D.Disk told.now.value volumes.old.journal (book_of volumes.old.held) spots.now }
    requires made { IsFalse told.now.value → AreHeldWhole (book_of volumes.old.held) spots.now }
    requires whole { MayBeWholeAt spots.now number }
    requires form { (spot : SpotValue) → slice_get spots.now number ≡ Some spot → spot.form ≡ forms.Told false }
    ensures asks { (payload : List ℕ) → IsPayload false framing wire.now payload → Asks told.now.value (book_of volumes.old.held) number payload result }
    ensures there { IsTrue D.tells → (payload : List ℕ) → IsPayload false framing wire.now payload → IfOk result (λ has. IsTrue has
        → IsChosenThere (texts D.Disk volumes.old.journal) (book_of volumes.old.held).namespace spots.now payload number) }
    ensures damage { IfErr result (TellsDamage D.tells (texts D.Disk volumes.old.journal) (book_of volumes.old.held).namespace spots.now) }
    ensures passes { (payload : List ℕ) → IsPayload false framing wire.now payload → IfOk result (λ has. IsFalse has
        → IsPassedOver D.tells (texts D.Disk volumes.old.journal) (book_of volumes.old.held).namespace spots.now payload number) }
    ensures reads { OnlyReads D.Disk volumes.old volumes.new }
    ensures faults { CountsIf (is_look_fault result) (D.faults (disk_of volumes.old.journal)) (D.faults (disk_of volumes.new.journal)) }
{
    let kept = spots[number as usize].digest;
    let read = reread_group(told, alloc, volumes, spots, number)?;
    match read {
        Reread::Own {
            head: _,
            payload,
            cut: false,
        } => Ok(has_bytes(framing, wire, payload.as_slice())),
        Reread::Own {
            head: _,
            payload: _,
            cut: true,
        } => Ok(false),
        Reread::Same { head: _, same: _ } => Ok(false),
        Reread::Damaged(found) => Err(StoreFault::Damaged {
            number,
            kept,
            found,
        }),
    }
}

/// Whether a capture that keeps its whole wire, or may do so, does, and has the payload of a whole one.
fn has_payload<D: Disk>(
    told: &Shown<bool>,
    alloc: Global,
    volumes: &mut Volumes<D>,
    spots: &[Spot],
    number: u32,
    framing: Framing,
    wire: &[u8],
) -> Result<bool, StoreFault>
    requires readable { CanReadBy D.Disk told.now.value volumes.old.journal (book_of volumes.old.held) spots.now }
    requires made { IsFalse told.now.value → AreHeldWhole (book_of volumes.old.held) spots.now }
    requires whole { MayBeWholeAt spots.now number }
    ensures asks { (payload : List ℕ) → IsPayload false framing wire.now payload → Asks told.now.value (book_of volumes.old.held) number payload result }
    ensures there { IsTrue D.tells → (payload : List ℕ) → IsPayload false framing wire.now payload → IfOk result (λ has. IsTrue has
        → IsChosenThere (texts D.Disk volumes.old.journal) (book_of volumes.old.held).namespace spots.now payload number) }
    ensures damage { IfErr result (TellsDamage D.tells (texts D.Disk volumes.old.journal) (book_of volumes.old.held).namespace spots.now) }
    ensures passes { (payload : List ℕ) → IsPayload false framing wire.now payload → IfOk result (λ has. IsFalse has
        → IsPassedOver D.tells (texts D.Disk volumes.old.journal) (book_of volumes.old.held).namespace spots.now payload number) }
    ensures reads { OnlyReads D.Disk volumes.old volumes.new }
    ensures faults { CountsIf (is_look_fault result) (D.faults (disk_of volumes.old.journal)) (D.faults (disk_of volumes.new.journal)) }
{
    let spot = &spots[number as usize];
    if spot.form.is_told() {
        return has_told_payload(told, alloc, volumes, spots, number, framing, wire);
    }
    let answer = compare_with(alloc, volumes, spot, framing, wire)?;
    match answer {
        Compared::Same => Ok(true),
        Compared::Other => Ok(false),
        Compared::Damaged(found) => Err(StoreFault::Damaged {
            number,
            kept: spot.digest,
            found,
        }),
    }
}

/// The first of these captures that has the payload of a whole wire. Each keeps its whole wire, or may do so: one that doesn't is passed
/// over.
pub fn choose<D: Disk>(
    told: &Shown<bool>,
    alloc: Global,
    volumes: &mut Volumes<D>,
    spots: &[Spot],
    candidates: &[u32],
    framing: Framing,
    wire: &[u8],
) -> Result<Option<u32>, StoreFault>
    requires readable { CanReadBy D.Disk told.now.value volumes.old.journal (book_of volumes.old.held) spots.now }
    requires made { IsFalse told.now.value → AreHeldWhole (book_of volumes.old.held) spots.now }
    requires whole { MayBeWhole spots.now candidates.now }
    ensures chooses { (payload : List ℕ) → IsPayload false framing wire.now payload
        → Chooses told.now.value (book_of volumes.old.held) candidates.now payload result }
    ensures there { IsTrue D.tells → (payload : List ℕ) → IsPayload false framing wire.now payload → IfOk result (λ found. IfSome found
        (IsChosenThere (texts D.Disk volumes.old.journal) (book_of volumes.old.held).namespace spots.now payload)) }
    ensures damage { IfErr result (TellsDamage D.tells (texts D.Disk volumes.old.journal) (book_of volumes.old.held).namespace spots.now) }
    ensures passes { (payload : List ℕ) → IsPayload false framing wire.now payload → IfOk result
        (PassesOver D.tells (texts D.Disk volumes.old.journal) (book_of volumes.old.held).namespace spots.now candidates.now payload) }
    ensures reads { OnlyReads D.Disk volumes.old volumes.new }
    ensures faults { CountsIf (is_look_fault result) (D.faults (disk_of volumes.old.journal)) (D.faults (disk_of volumes.new.journal)) }
{
    for candidate in candidates {
        let has = has_payload(told, alloc, volumes, spots, *candidate, framing, wire)?;
        if has {
            return Ok(Some(*candidate));
        }
    }
    Ok(None)
}

/// Looks for the payload of a whole wire among all captures, of which the candidates are those that weren't looked at and have its
/// digest. An empty payload isn't looked for.
pub fn look_on_wire<D: Disk>(
    told: &Shown<bool>,
    alloc: Global,
    volumes: &mut Volumes<D>,
    spots: &[Spot],
    candidates: &[u32],
    framing: Framing,
    wire: &[u8],
    looked: Looked,
) -> Result<Looked, StoreFault>
    requires readable { CanReadBy D.Disk told.now.value volumes.old.journal (book_of volumes.old.held) spots.now }
    requires made { IsFalse told.now.value → AreHeldWhole (book_of volumes.old.held) spots.now }
    requires few { length spots.now < 2 ^ 32 }
    requires wire { IsWire false framing wire.now }
    requires candidates { (payload : List ℕ) → IsPayload false framing wire.now payload → candidates.now
        ≡ filter (λ number. nat_le looked.upto number) (numbers_of (sha1 payload) (whole_from 0 spots.now)) }
    requires rising { IsStrictlyIncreasing candidates.now }
    requires right { (payload : List ℕ) → IsPayload false framing wire.now payload → IsRight told.now.value (book_of volumes.old.held) payload looked }
    ensures looks { (payload : List ℕ) → IsPayload false framing wire.now payload → LooksOn told.now.value (book_of volumes.old.held) payload result }
    ensures since { NoneDamagedBelow looked.upto result }
    ensures there { IsTrue D.tells → (payload : List ℕ) → IsPayload false framing wire.now payload → looked.same ≡ None
        → IfOk result (λ now. IfSome now.same
        (IsChosenThere (texts D.Disk volumes.old.journal) (book_of volumes.old.held).namespace spots.now payload)) }
    ensures digest { (payload : List ℕ) → IsPayload false framing wire.now payload → looked.same ≡ None
        → IfOk result (λ now. IfSome now.same (IsKeptWith spots.now (sha1 payload))) }
    ensures damage { IfErr result (TellsDamage D.tells (texts D.Disk volumes.old.journal) (book_of volumes.old.held).namespace spots.now) }
    ensures passes { (payload : List ℕ) → IsPayload false framing wire.now payload → payload ≢ [] → looked.same ≡ None
        → IfOk result (λ now. PassesOver D.tells (texts D.Disk volumes.old.journal) (book_of volumes.old.held).namespace spots.now candidates.now
        payload now.same) }
    ensures reads { OnlyReads D.Disk volumes.old volumes.new }
    ensures faults { CountsIf (is_look_fault result) (D.faults (disk_of volumes.old.journal)) (D.faults (disk_of volumes.new.journal)) }
{
    let upto = spots.len() as u32;
    if has_no_bytes(framing, wire) {
        return Ok(Looked { upto, same: None });
    }
    match looked.same {
        Some(same) => Ok(Looked {
            upto,
            same: Some(same),
        }),
        None => {
            let same = choose(told, alloc, volumes, spots, candidates, framing, wire)?;
            Ok(Looked { upto, same })
        }
    }
}
