//! A capture that is to be written, with all that this takes.
ghost use Rattle.std.specs.Prelude.{◌≡◌, ◌+◌, ◌-◌, ◌^◌, ◌<◌, ℕ, List, length, IfOk};
ghost use Rattle.sha1.specs.Sha1.{sha1};
ghost use Rattle.capture.specs.Captures.{captures};
ghost use Rattle.warc_text.specs.Fits.{Fits};
ghost use Rattle.archive_shelf.specs.Comparing.{CanRefer};
ghost use Rattle.archive_volumes.specs.Held.{book_of};
ghost use Rattle.archive_volumes.specs.Ready.{IsReady, incoming_of};
ghost use Rattle.archive_volumes.specs.Spots.{AreSpotsOf};
ghost use Rattle.archive_volumes.specs.Volumes.{IsMeasured};

use crate::group::{Layout, layout_of};
use crate::room::Prepared;
use crate::spot::Spot;
use crate::stored_ghost::StoredGhost;
use crate::volumes::Volumes;
use capture::{Bytes, Digest, Memory, Taken};
use disk_model::Disk;
use std::alloc::Global;

/// A capture that is to be written, with the memory that this takes.
#[derive(Drop)]
pub struct Ready {
    /// The capture as it is to stand in the book.
    pub stored: StoredGhost,
    /// What is to be kept of it in memory, but for where its group will stand.
    pub spot: Spot,
    /// The digest of its payload.
    pub digest: Digest,
    /// Its group.
    pub group: Bytes,
    /// How that is laid out.
    pub layout: Layout,
    /// The volume that is to be begun for it, where it needs one.
    pub prepared: Option<Prepared>,
}

impl<D: Disk> Volumes<D> {
    /// Makes a capture ready to be written behind those of which this is kept. Nothing is written.
    pub fn make_ready(
        &mut self,
        alloc: Global,
        spots: &[Spot],
        taken: &Taken,
        digest: &Digest,
        same: Option<u32>,
        limit: u64,
    ) -> Result<Ready, Memory>
        requires spots { AreSpotsOf (book_of self.old.held) spots.now }
        requires measured { IsMeasured self.old.journal (book_of self.old.held) }
        requires few { length spots.now + 1 < 2 ^ 32 - 1 }
        requires fits { Fits taken.now }
        requires refers { CanRefer taken.now.cut (book_of self.old.held) same }
        requires limit { limit < 2 ^ 62 }
        requires payload { (payload : List ℕ) × (digest.now ≡ sha1 payload) }
        ensures ready { (payload : List ℕ) → digest.now ≡ sha1 payload
            → IfOk result (IsReady self.old self.new limit (incoming_of taken.now digest.now same) payload) }
        ensures book { book_of self.new.held ≡ book_of self.old.held }
        ensures journal { self.new.journal ≡ self.old.journal }
    {
        let group = self.group_of(alloc, spots, taken, digest, same)?;
        let spot = Spot::of_taken(taken, digest, same)?;
        let layout = layout_of(taken, same, group.as_slice());
        let long = group.as_slice().len() as u64;
        let prepared = self.make_room(alloc, taken.date, long, limit)?;
        Ok(Ready {
            stored: StoredGhost::of_taken(taken, same),
            spot,
            digest: *digest,
            group,
            layout,
            prepared,
        })
    }
}
