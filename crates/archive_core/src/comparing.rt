//! How a payload is compared with those of the captures, and which earlier capture a new one refers to.
ghost use Rattle.std.specs.Prelude.{◌≡◌, ◌⊎◌, ℕ, ◌<◌, Bool, List, None, false, IsTrue, OnOk, IfOk, IfSome, length};
ghost use Rattle.sha1.specs.Sha1.{sha1};
ghost use Rattle.warc_journal.specs.Journals.{disk_of};
ghost use Rattle.warc_text.specs.Sound.{IsSound};
ghost use Rattle.archive_shelf.specs.Answers.{CountsIf};
ghost use Rattle.archive_shelf.specs.Comparing.{IsRight};
ghost use Rattle.archive_payloads.specs.Choosing.{IsKeptWith, LooksOn, NoneDamagedBelow, is_look_fault};
ghost use Rattle.archive_core.specs.Holdings.{contents_of};
ghost use Rattle.archive_core.specs.Looking.{IsDigestOf, IsFoundThere, IsRightOf, Looks, LooksFor, OnlyLooks, RefersThere, RefersTo};
ghost use Rattle.capture.specs.Body.{IsWire};
ghost use Rattle.capture.specs.Captures.{captures, HasPayload};
ghost use Rattle.capture.specs.Payload.{IsPayload};
ghost use Rattle.capture.specs.declared.captured.Taken.{Taken as TakenValue};
ghost use Rattle.warc_text.specs.Fits.{Fits};
ghost use Rattle.archive_core.specs.Matching.{FindsAmongAll, IsFramedBy};

use crate::Archive;
use archive_payloads::look_on_wire;
use archive_reading::framing_behind;
use archive_shelf::{Looked, StoreFault};
use archive_volumes::Spot;
use capture::{Digest, Framing, Memory, Taken, wires_have_one_payload};
use disk_model::Disk;
use message_body::{Payload, PayloadFault, Slices, payload_in};
use sha1::Sha1;
use std::alloc::Global;

impl<D: Disk> Archive<D> {
    /// Looks for the payload of a whole wire among all captures that weren't looked at before, byte for byte, as the disk has
    /// them.
    pub(crate) fn look_on(
        &mut self,
        alloc: Global,
        framing: Framing,
        wire: &[u8],
        digest: &Digest,
        looked: Looked,
    ) -> Result<Looked, StoreFault>
        requires wire { IsWire false framing wire.now }
        requires digest { (payload : List ℕ) → IsPayload false framing wire.now payload → digest.now ≡ sha1 payload }
        requires right { (payload : List ℕ) → IsPayload false framing wire.now payload → IsRight self.old.told self.old.book payload looked }
        ensures looks { (payload : List ℕ) → IsPayload false framing wire.now payload → LooksOn self.new.told self.new.book payload result }
        ensures since { NoneDamagedBelow looked.upto result }
        ensures there { (payload : List ℕ) → IsPayload false framing wire.now payload → looked.same ≡ None
            → IfOk result (λ now. IfSome now.same (IsFoundThere D.Disk self.old payload)) }
        ensures only_looks { OnlyLooks D.Disk self.old self.new }
        ensures faults { CountsIf (is_look_fault result) (D.faults (disk_of self.old.journal)) (D.faults (disk_of self.new.journal)) }
        ensures sound { IsTrue self.new.told → IsSound self.new.book }
    {
        let candidates = self.table.candidates_from(digest, looked.upto);
        look_on_wire(
            &self.told,
            alloc,
            &mut self.volumes,
            self.spots.as_slice(),
            candidates,
            framing,
            wire,
            looked,
        )
    }

    /// Looks for a payload that may be stored later, by `store_after`, among all captures that weren't looked at before.
    /// Nothing is written. It is full before anything is read.
    pub fn compare(
        &mut self,
        alloc: Global,
        payload: &[u8],
        digest: &Digest,
        looked: Looked,
    ) -> Result<Looked, StoreFault>
        requires digest { digest.now ≡ sha1 payload.now }
        requires right { IsRight self.old.told self.old.book payload.now looked }
        ensures looks { Looks (contents_of self.new) payload.now result }
        ensures since { NoneDamagedBelow looked.upto result }
        ensures there { looked.same ≡ None → IfOk result (λ now. IfSome now.same (IsFoundThere D.Disk self.old payload.now)) }
        ensures only_looks { OnlyLooks D.Disk self.old self.new }
        ensures faults { CountsIf (is_look_fault result) (D.faults (disk_of self.old.journal)) (D.faults (disk_of self.new.journal)) }
        ensures sound { OnOk result (IsTrue self.new.told → IsSound self.new.book) }
    {
        self.check_room()?;
        self.look_on(alloc, Framing::ToEnd, payload, digest, looked)
    }
}

/// The framing of a capture that was taken: by that its wire is decoded to its payload.
pub(crate) fn framing_of_taken(alloc: Global, taken: &Taken) -> Result<Framing, Memory>
    requires fits { Fits taken.now }
    ensures { IfOk result (IsFramedBy taken.now) }
{
    wires_have_one_payload();
    match framing_behind(alloc, taken.method.as_slice(), taken.head.as_slice())? {
        Some(framing) => Ok(framing),
        None => unreachable!(),
    }
}

/// The payload of a capture that was taken: its wire, which takes no memory, or the data of a chunked one.
pub fn payload_of_taken<'t>(alloc: Global, taken: &'t Taken) -> Result<Payload<'t>, Memory>
    requires fits { Fits taken.now }
    ensures { IfOk result (λ payload. HasPayload taken.now.cut taken.now.method taken.now.head taken.now.wire payload) }
{
    let framing = framing_of_taken(alloc, taken)?;
    payload_by(alloc, framing, taken)
}

/// The payload of a capture's wire, which is a body of this framing, whole or cut.
fn payload_by<'t>(alloc: Global, framing: Framing, taken: &'t Taken) -> Result<Payload<'t>, Memory>
    requires framed { IsFramedBy taken.now framing }
    ensures { IfOk result (λ payload. HasPayload taken.now.cut taken.now.method taken.now.head taken.now.wire payload) }
{
    match payload_in(alloc, framing, taken.wire.as_slice(), taken.cut) {
        Ok(payload) => Ok(payload),
        Err(PayloadFault::Malformed) => unreachable!(),
        Err(PayloadFault::Memory) => Err(Memory),
    }
}

/// The digest of a wire's payload, whole or cut, of which nothing is joined.
pub(crate) fn digest_of_wire(framing: Framing, wire: &[u8]) -> Digest
    ensures { (cut : Bool) (payload : List ℕ) → IsPayload cut framing wire.now payload → result ≡ sha1 payload }
{
    let mut slices = Slices::of(framing, wire);
    let mut hasher = Sha1::new();
    'walking: loop {
        let slice = slices.next();
        if slice.is_empty() {
            return hasher.finalize();
        }
        hasher.update(slice);
    }
}

/// The capture that was found for a new one, if this digest is kept of it.
fn kept_with(spots: &[Spot], digest: &Digest, found: Option<u32>) -> Option<u32>
    requires below { IfSome found (λ number. number < length spots.now) }
    ensures one { (result ≡ found) ⊎ (result ≡ None) }
    ensures kept { IfSome result (IsKeptWith spots.now digest.now) }
    ensures all { IfSome found (IsKeptWith spots.now digest.now) → result ≡ found }
{
    match found {
        Some(number) => {
            let spot = &spots[number as usize];
            if spot.digest != *digest {
                return None;
            }
            Some(number)
        }
        None => None,
    }
}

impl<D: Disk> Archive<D> {
    /// The capture that was found for a new one, if it has the digest of the new one's payload. Where the book is told it has: else who found
    /// it may have been mistaken, and the new one keeps its own payload.
    pub(crate) fn still_found(&self, digest: &Digest, found: Option<u32>) -> Option<u32>
        requires below { IfSome found (λ number. number < length (captures self.now.book)) }
        ensures one { (result ≡ found) ⊎ (result ≡ None) }
        ensures kept { IfSome result (IsKeptWith self.now.spots digest.now) }
        ensures refers { (taken : TakenValue) → IsDigestOf taken digest.now → RefersTo (contents_of self.now) taken found → RefersTo (contents_of self.now) taken result }
    {
        kept_with(self.spots.as_slice(), digest, found)
    }

    /// The first of all captures that has the payload of this whole wire; those that weren't looked at before are read.
    fn same_with(
        &mut self,
        alloc: Global,
        framing: Framing,
        wire: &[u8],
        digest: &Digest,
        looked: Looked,
    ) -> Result<Option<u32>, StoreFault>
        requires wire { IsWire false framing wire.now }
        requires digest { (payload : List ℕ) → IsPayload false framing wire.now payload → digest.now ≡ sha1 payload }
        requires right { (payload : List ℕ) → IsPayload false framing wire.now payload → IsRight self.old.told self.old.book payload looked }
        ensures finds { (payload : List ℕ) → IsPayload false framing wire.now payload → FindsAmongAll self.new.told self.new.book payload result }
        ensures there { (payload : List ℕ) → IsPayload false framing wire.now payload → looked.same ≡ None
            → IfOk result (λ same. IfSome same (IsFoundThere D.Disk self.old payload)) }
        ensures since { NoneDamagedBelow looked.upto result }
        ensures looks { OnlyLooks D.Disk self.old self.new }
        ensures faults { CountsIf (is_look_fault result) (D.faults (disk_of self.old.journal)) (D.faults (disk_of self.new.journal)) }
    {
        let all = self.look_on(alloc, framing, wire, digest, looked)?;
        Ok(all.same)
    }

    /// The capture that a new one of this framing refers to: the first that has its payload, if there is one. One that was
    /// cut refers to nothing.
    pub(crate) fn same_by(
        &mut self,
        alloc: Global,
        taken: &Taken,
        framing: Framing,
        digest: &Digest,
        looked: Looked,
    ) -> Result<Option<u32>, StoreFault>
        requires fits { Fits taken.now }
        requires framed { IsFramedBy taken.now framing }
        requires digest { IsDigestOf taken.now digest.now }
        requires right { IsRightOf (contents_of self.old) taken.now looked }
        ensures refers { LooksFor (contents_of self.new) taken.now result }
        ensures there { looked.same ≡ None → IfOk result (RefersThere D.Disk self.old taken.now) }
        ensures looks { OnlyLooks D.Disk self.old self.new }
        ensures faults { CountsIf (is_look_fault result) (D.faults (disk_of self.old.journal)) (D.faults (disk_of self.new.journal)) }
    {
        wires_have_one_payload();
        if taken.cut {
            return Ok(None);
        }
        self.same_with(alloc, framing, taken.wire.as_slice(), digest, looked)
    }

    /// The capture that a new one refers to: the first with its payload, if there is one. One that was cut refers to
    /// nothing. Nothing is read where all captures were looked at before.
    pub(crate) fn same_of(
        &mut self,
        alloc: Global,
        taken: &Taken,
        digest: &Digest,
        looked: Looked,
    ) -> Result<Option<u32>, StoreFault>
        requires fits { Fits taken.now }
        requires digest { IsDigestOf taken.now digest.now }
        requires right { IsRightOf (contents_of self.old) taken.now looked }
        ensures refers { LooksFor (contents_of self.new) taken.now result }
        ensures there { looked.same ≡ None → IfOk result (RefersThere D.Disk self.old taken.now) }
        ensures looks { OnlyLooks D.Disk self.old self.new }
        ensures since { NoneDamagedBelow looked.upto result }
        ensures unread { looked.upto ≡ length (captures self.old.book) → self.new ≡ self.old }
        ensures faults { CountsIf (is_look_fault result) (D.faults (disk_of self.old.journal)) (D.faults (disk_of self.new.journal)) }
    {
        wires_have_one_payload();
        if taken.cut {
            return Ok(None);
        }
        let count = self.spots.len() as u32;
        if looked.upto == count {
            return Ok(looked.same);
        }
        let framing = framing_of_taken(alloc, taken)?;
        self.same_with(alloc, framing, taken.wire.as_slice(), digest, looked)
    }
}
