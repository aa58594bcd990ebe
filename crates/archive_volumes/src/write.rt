//! How a capture is written, in a volume that is begun for it where it needs one, and kept in memory.
ghost use Rattle.std.specs.Prelude.{◌≡◌, ◌⊎◌, ◌+◌, ◌-◌, ◌^◌, ◌<◌, ◌++◌, ◌∷◌, [], IsTrue, IfOk, OnErr, OnOk, length, Some, vec_len};
ghost use Rattle.capture.specs.Captures.{captures};
ghost use Rattle.capture.specs.Faults.{CountsFaults};
ghost use Rattle.capture.specs.Tails.{IsCommitted};
ghost use Rattle.warc_journal.specs.Extents.{cdxj_files};
ghost use Rattle.warc_journal.specs.Journals.{disk_of, last_len, texts};
ghost use Rattle.warc_journal.specs.Texts.{with_more};
ghost use Rattle.warc_text.specs.Books.{IsGroupText};
ghost use Rattle.warc_text.specs.Sound.{IsSound};
ghost use Rattle.warc_text.specs.StandsFor.{commit_byte};
ghost use Rattle.archive_shelf.specs.Storing.{with_capture};
ghost use Rattle.archive_volumes.specs.Volumes.{CanReadBy, HoldsBook, IsMeasured, muted};
ghost use Rattle.archive_volumes.specs.Held.{book_of, stored_in};
ghost use Rattle.archive_volumes.specs.Writing.{HasRoomFor, Writes, books_as, end_with, texts_with, with_prepared};
ghost use Rattle.archive_volumes.specs.Written.{WritesTexts, texts_as};
ghost use Rattle.std.specs.Vec.{vec_capacity};
ghost use Rattle.archive_volumes.specs.Ready.{CanCommit, spot_in};
ghost use Rattle.archive_volumes.specs.Spots.{AreHeldWhole, AreSpotsOf, ArePlaced, AreWithin, whole_from};

use crate::ready::Ready;
use crate::room::Prepared;
use crate::spot::{Spot, keep};
use crate::stored_ghost::StoredGhost;
use crate::volumes::Volumes;
use disk_model::Disk;
use revisit_table::Digests;
use shown::Shown;
use warc_journal::{DiskFault, Place};

impl<D: Disk> Volumes<D> {
    /// Writes a capture with its group into the last volume, or into the one that was prepared for it, which is begun first.
    /// Takes no memory. Refused, the book is as before, or it has that volume.
    pub(crate) fn write(
        &mut self,
        told: &Shown<bool>,
        prepared: Option<Prepared>,
        stored: StoredGhost,
        group: &[u8],
    ) -> Result<Place, DiskFault>
        requires room { HasRoomFor self.old prepared }
        requires holds { HoldsBook D.Disk told.now.value self.old.journal (book_of self.old.held) }
        requires measured { IsMeasured self.old.journal (book_of self.old.held) }
        requires committed { IsCommitted commit_byte group.now }
        requires group { IsTrue told.now.value → IsGroupText (with_capture (with_prepared (book_of self.old.held) prepared) (stored_in stored))
            (length (captures (with_prepared (book_of self.old.held) prepared))) group.now }
        requires sound { IsTrue told.now.value → IsSound (with_capture (with_prepared (book_of self.old.held) prepared) (stored_in stored)) }
        requires fits { end_with self.old prepared + length group.now < 2 ^ 62 }
        ensures stored { OnOk result (book_of self.new.held
            ≡ with_capture (with_prepared (book_of self.old.held) prepared) (stored_in stored)) }
        ensures left { OnErr result ((book_of self.new.held ≡ book_of self.old.held)
            ⊎ (book_of self.new.held ≡ with_prepared (book_of self.old.held) prepared)) }
        ensures holds { HoldsBook D.Disk told.now.value self.new.journal (book_of self.new.held) }
        ensures measured { IsMeasured self.new.journal (book_of self.new.held) }
        ensures place { IfOk result (λ place. place ≡ record {
          volume = length (with_prepared (book_of self.old.held) prepared).volumes - 1;
          at = end_with self.old prepared;
          len = length group.now;
        }) }
        ensures last_len { OnOk result (last_len self.new.journal ≡ end_with self.old prepared + length group.now) }
        ensures text { IsTrue D.tells → OnOk result (texts D.Disk self.new.journal
            ≡ with_more (texts_with (texts D.Disk self.old.journal) prepared) group.now) }
        ensures texts_left { IsTrue D.tells → OnErr result ((texts D.Disk self.new.journal ≡ texts D.Disk self.old.journal)
            ⊎ (texts D.Disk self.new.journal ≡ texts_with (texts D.Disk self.old.journal) prepared)) }
        ensures others { IsTrue D.tells
            → cdxj_files (D.reading (disk_of self.new.journal)) ≡ cdxj_files (D.reading (disk_of self.old.journal)) }
        ensures writes { Writes (muted told.now.value D.Disk) (disk_of self.old.journal) (disk_of self.new.journal)
            (books_as (book_of self.old.held) (with_prepared (book_of self.old.held) prepared)
            (with_capture (with_prepared (book_of self.old.held) prepared) (stored_in stored)) (book_of self.new.held)) result }
        ensures bytes { IsTrue D.tells → WritesTexts D.Disk self.old.journal self.new.journal
            (texts_as (texts_with (texts D.Disk self.old.journal) prepared)
            (with_more (texts_with (texts D.Disk self.old.journal) prepared) group.now)) result }
        ensures faults { CountsFaults (D.faults (disk_of self.old.journal)) (D.faults (disk_of self.new.journal)) result }
    {
        match prepared {
            Some(prepared) => {
                self.begin(told, prepared)?;
                self.add(told, stored, group)
            }
            None => self.add(told, stored, group),
        }
    }
}

impl<D: Disk> Volumes<D> {
    /// Writes a capture that is ready, and keeps it behind the others, in the room that is there. Takes no memory. Refused, the
    /// book is as before, or it has the volume that was prepared.
    pub fn commit(
        &mut self,
        told: &Shown<bool>,
        spots: &mut Vec<Spot>,
        table: &mut Digests,
        ready: Ready,
    ) -> Result<(), DiskFault>
        requires ready { CanCommit D.Disk told.now.value self.old ready }
        requires readable { CanReadBy D.Disk told.now.value self.old.journal (book_of self.old.held) spots.old.items }
        requires table { table.old.kept ≡ whole_from 0 spots.old.items }
        requires space { vec_len spots.old < vec_capacity spots.old }
        requires reserved { table.old.reserved ≡ Some ready.digest }
        requires few { length spots.old.items < 2 ^ 32 }
        ensures stored { OnOk result (book_of self.new.held
            ≡ with_capture (with_prepared (book_of self.old.held) ready.prepared) (stored_in ready.stored)) }
        ensures left { OnErr result ((book_of self.new.held ≡ book_of self.old.held)
            ⊎ (book_of self.new.held ≡ with_prepared (book_of self.old.held) ready.prepared)) }
        ensures holds { HoldsBook D.Disk told.now.value self.new.journal (book_of self.new.held) }
        ensures measured { IsMeasured self.new.journal (book_of self.new.held) }
        ensures last_len { OnOk result (last_len self.new.journal ≡ end_with self.old ready.prepared + length ready.group) }
        ensures kept { OnOk result (spots.new.items ≡ spots.old.items ++ spot_in self.old ready ∷ []) }
        ensures unkept { OnErr result (spots.new.items ≡ spots.old.items) }
        ensures spots { AreSpotsOf (book_of self.new.held) spots.new.items }
        ensures within { IsTrue D.tells → AreWithin (texts D.Disk self.new.journal) spots.new.items }
        ensures placed { IsTrue told.now.value → ArePlaced (texts D.Disk self.new.journal) (book_of self.new.held) spots.new.items }
        ensures made { AreHeldWhole (book_of self.old.held) spots.old.items → AreHeldWhole (book_of self.new.held) spots.new.items }
        ensures table { table.new.kept ≡ whole_from 0 spots.new.items }
        ensures others { IsTrue D.tells
            → cdxj_files (D.reading (disk_of self.new.journal)) ≡ cdxj_files (D.reading (disk_of self.old.journal)) }
        ensures writes { Writes (muted told.now.value D.Disk) (disk_of self.old.journal) (disk_of self.new.journal)
            (books_as (book_of self.old.held) (with_prepared (book_of self.old.held) ready.prepared)
            (with_capture (with_prepared (book_of self.old.held) ready.prepared) (stored_in ready.stored)) (book_of self.new.held)) result }
        ensures bytes { IsTrue D.tells → WritesTexts D.Disk self.old.journal self.new.journal
            (texts_as (texts_with (texts D.Disk self.old.journal) ready.prepared)
            (with_more (texts_with (texts D.Disk self.old.journal) ready.prepared) ready.group)) result }
        ensures faults { CountsFaults (D.faults (disk_of self.old.journal)) (D.faults (disk_of self.new.journal)) result }
    {
        let Ready {
            stored,
            spot,
            digest: _,
            group,
            layout,
            prepared,
        } = ready;
        let place = self.write(told, prepared, stored, group.as_slice())?;
        let spot = spot.standing(place.volume, place.at, place.at + layout.head_at);
        keep(spots, table, spot);
        Ok(())
    }
}
