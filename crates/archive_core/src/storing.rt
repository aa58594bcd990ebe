//! How a capture is stored whose payload was compared.
ghost use Rattle.std.specs.Prelude.{length, ◌<◌, ◌≡◌, ℕ, IfOk, IfSome, None, is_some, if◌then◌else◌};
ghost use Rattle.capture.specs.Captures.{captures};
ghost use Rattle.warc_text.specs.Fits.{Fits};
ghost use Rattle.archive_core.specs.Basis.{StoringBasis};
ghost use Rattle.archive_payloads.specs.Choosing.{IsKeptWith, NoneDamagedBelow};
ghost use Rattle.archive_core.specs.Holdings.{contents_of};
ghost use Rattle.archive_core.specs.Looking.{IsDigestOf, IsRightOf, RefersThere, RefersTo};
ghost use Rattle.archive_core.specs.Stores.{Stores};

use crate::Archive;
use crate::comparing::{digest_of_wire, framing_of_taken};
use archive_index::enter_ready;
use archive_shelf::{
    Looked, Receipt, StoreFault, entries_gain_what_is_stored, storing_keeps_soundness,
    texts_go_on_behind,
};
use archive_volumes::reserve_kept;
use capture::{Digest, Taken, growth_keeps_captures, wires_have_one_payload};
use disk_model::Disk;
use std::alloc::Global;
use surt_key::accepted_targets_have_keys;
use warc_text::texts_are_committed;

/// The laws that storing builds on.
pub fn storing_has_a_basis()
    ensures { StoringBasis }
{
    texts_are_committed();
    texts_go_on_behind();
    storing_keeps_soundness();
    entries_gain_what_is_stored();
    accepted_targets_have_keys();
    growth_keeps_captures();
    wires_have_one_payload();
}

/// How many revisits a capture is that refers to this one, if to any.
pub fn revisits_in(same: Option<u32>) -> u32
    ensures { result ≡ (if is_some same then 1 else 0) }
{
    match same {
        Some(_) => 1,
        None => 0,
    }
}

impl<D: Disk> Archive<D> {
    /// Stores a capture whose payload was compared. All memory is taken before the first write; the entry is taken back where the
    /// disk refuses.
    pub(crate) fn store_compared(
        &mut self,
        alloc: Global,
        taken: &Taken,
        digest: &Digest,
        same: Option<u32>,
    ) -> Result<Receipt, StoreFault>
        requires not_full { length (captures self.old.book) < self.old.limits.captures }
        requires fits { Fits taken.now }
        requires digest { IsDigestOf taken.now digest.now }
        requires refers { RefersTo (contents_of self.old) taken.now same }
        requires kept { IfSome same (IsKeptWith self.old.spots digest.now) }
        ensures stores { Stores D.Disk self.old self.new taken.now result }
        ensures same { IfOk result (λ receipt. receipt.same_as ≡ same) }
        ensures unread { (number : ℕ) → NoneDamagedBelow number result }
    {
        storing_has_a_basis();
        let number = self.spots.len() as u32;
        let limit = self.limits.volume_bytes;
        reserve_kept(alloc, &mut self.spots, &mut self.table, digest)?;
        let ready = self
            .volumes
            .make_ready(alloc, self.spots.as_slice(), taken, digest, same, limit)?;
        let at = self.volumes.record_at(&ready, number);
        let entered = enter_ready(alloc, &mut self.index, ready, taken.head.as_slice(), at)?;
        match self
            .volumes
            .commit(&self.told, &mut self.spots, &mut self.table, entered)
        {
            Ok(()) => {
                self.revisits += revisits_in(same);
                Ok(Receipt {
                    number,
                    same_as: same,
                })
            }
            Err(_) => {
                self.index.take_back(number);
                Err(StoreFault::DiskFault)
            }
        }
    }

    /// Stores a capture in an archive that isn't full. What was found before is taken only with the digest of the capture's payload.
    fn store_looked(
        &mut self,
        alloc: Global,
        taken: &Taken,
        digest: &Digest,
        looked: Looked,
    ) -> Result<Receipt, StoreFault>
        requires not_full { length (captures self.old.book) < self.old.limits.captures }
        requires fits { Fits taken.now }
        requires digest { IsDigestOf taken.now digest.now }
        requires right { IsRightOf (contents_of self.old) taken.now looked }
        ensures stores { Stores D.Disk self.old self.new taken.now result }
        ensures there { looked.same ≡ None → IfOk result (λ receipt. RefersThere D.Disk self.old taken.now receipt.same_as) }
        ensures since { NoneDamagedBelow looked.upto result }
    {
        let same = self.same_of(alloc, taken, digest, looked)?;
        let kept = self.still_found(digest, same);
        self.store_compared(alloc, taken, digest, kept)
    }

    /// Stores a capture whose payload was looked for before, by `compare`: of that, `looked` may be an earlier answer. The answer
    /// is that of `store`, but only captures are read that weren't looked at, and none where all were.
    pub fn store_after(
        &mut self,
        alloc: Global,
        taken: &Taken,
        digest: &Digest,
        looked: Looked,
    ) -> Result<Receipt, StoreFault>
        requires fits { Fits taken.now }
        requires digest { IsDigestOf taken.now digest.now }
        requires right { IsRightOf (contents_of self.old) taken.now looked }
        ensures stores { Stores D.Disk self.old self.new taken.now result }
        ensures there { looked.same ≡ None → IfOk result (λ receipt. RefersThere D.Disk self.old taken.now receipt.same_as) }
        ensures since { NoneDamagedBelow looked.upto result }
    {
        self.check_room()?;
        self.store_looked(alloc, taken, digest, looked)
    }

    /// Stores a capture whose payload wasn't looked for. It is what `store` of the shelf answers, with all that is said of it.
    pub fn store_new(&mut self, alloc: Global, taken: &Taken) -> Result<Receipt, StoreFault>
        requires fits { Fits taken.now }
        ensures stores { Stores D.Disk self.old self.new taken.now result }
        ensures there { IfOk result (λ receipt. RefersThere D.Disk self.old taken.now receipt.same_as) }
    {
        self.check_room()?;
        wires_have_one_payload();
        let framing = framing_of_taken(alloc, taken)?;
        let digest = digest_of_wire(framing, taken.wire.as_slice());
        let same = self.same_by(alloc, taken, framing, &digest, Looked::none())?;
        self.store_compared(alloc, taken, &digest, same)
    }
}
