//! Room for a capture: in the last volume, or in a new one that is prepared for it.
ghost use Rattle.std.specs.Prelude.{◌≡◌, ◌+◌, ◌-◌, ◌^◌, ◌<◌, IfOk, IfSome, length};
ghost use Rattle.capture.specs.Captures.{captures};
ghost use Rattle.time_text.specs.Texts.{InRange};
ghost use Rattle.warc_journal.specs.Journals.{last_len};
ghost use Rattle.archive_volumes.specs.Held.{book_of};
ghost use Rattle.archive_volumes.specs.Writing.{HasRoomFor, IsDecided, IsNeeded, end_with};
ghost use Rattle.archive_volumes.specs.Volumes.{IsMeasured};

use crate::held::Shadow;
use crate::volumes::Volumes;
use capture::{Bytes, Memory};
use disk_model::Disk;
use std::alloc::Global;

/// A volume that is to be begun, with all the memory that it and its first capture take.
#[derive(Drop)]
pub struct Prepared {
    /// What is kept of it.
    pub shadow: Shadow,
    /// Its text, a warcinfo.
    pub info: Bytes,
}

impl<D: Disk> Volumes<D> {
    /// Whether a capture whose group has so many bytes needs a new volume: there is none, or the last one holds a capture and
    /// its text would have more than `limit` bytes with the group.
    fn needs_volume(&self, group: u64, limit: u64) -> bool
        requires measured { IsMeasured self.now.journal (book_of self.now.held) }
        requires group { group < 2 ^ 62 }
        ensures { IsNeeded limit (book_of self.now.held) (last_len self.now.journal) group result }
    {
        if self.journal.volumes() == 0 {
            return true;
        }
        if !self.held.is_filled() {
            return false;
        }
        let end = self.journal.last_len() + group;
        end > limit
    }

    /// Makes room for a capture of this date whose group has so many bytes, in the last volume or in one that is prepared for
    /// it. Nothing is written.
    pub(crate) fn make_room(
        &mut self,
        alloc: Global,
        date: u64,
        group: u64,
        limit: u64,
    ) -> Result<Option<Prepared>, Memory>
        requires measured { IsMeasured self.old.journal (book_of self.old.held) }
        requires few { length (captures (book_of self.old.held)) < 2 ^ 32 - 1 }
        requires date { InRange date }
        requires group { group + 512 < 2 ^ 62 }
        requires limit { limit < 2 ^ 62 }
        ensures room { IfOk result (HasRoomFor self.new) }
        ensures decided { IfOk result (IsDecided limit (book_of self.old.held) (last_len self.old.journal) group) }
        ensures born { IfOk result (λ prepared. IfSome prepared (λ p. p.shadow.born ≡ date)) }
        ensures fits { IfOk result (λ prepared. end_with self.new prepared + group < 2 ^ 62) }
        ensures book { book_of self.new.held ≡ book_of self.old.held }
        ensures journal { self.new.journal ≡ self.old.journal }
    {
        if self.needs_volume(group, limit) {
            let prepared = self.prepare(alloc, date)?;
            return Ok(Some(prepared));
        }
        self.held.reserve()?;
        Ok(None)
    }
}
