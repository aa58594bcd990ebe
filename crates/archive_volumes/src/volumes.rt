//! The volumes on the disk, and the book that they hold.
ghost use Rattle.std.specs.Prelude.{◌≡◌, ◌+◌, ◌-◌, ◌^◌, ◌<◌, ◌≤◌, [], ◌∷◌, ◌++◌, IsTrue, IfOk, OnOk, is_ok, if◌then◌else◌, length, slice_index_or, take, drop, Bool};
ghost use Rattle.capture.specs.Captures.{captures};
ghost use Rattle.capture.specs.Faults.{CountsFaults};
ghost use Rattle.capture.specs.Tails.{IsCommitted};
ghost use Rattle.disk_model.specs.Crash.{Leaves};
ghost use Rattle.time_text.specs.Texts.{InRange};
ghost use Rattle.warc_journal.specs.Extents.{cdxj_files, warc_files};
ghost use Rattle.warc_journal.specs.Journals.{Changes, IsInStep, Rests, disk_of, extent_of, last_len, texts, volumes};
ghost use Rattle.warc_journal.specs.Texts.{Hold, with_more};
ghost use Rattle.warc_text.specs.Books.{AreVolumeTexts, IsGroupText};
ghost use Rattle.warc_text.specs.Sound.{IsSound};
ghost use Rattle.warc_text.specs.StandsFor.{commit_byte};
ghost use Rattle.archive_shelf.specs.Gaining.{AreFilled};
ghost use Rattle.archive_shelf.specs.Storing.{with_capture, with_volume};
ghost use Rattle.archive_volumes.specs.Held.{TakesCapture, TakesVolume, book_of, stored_in};
ghost use Rattle.archive_volumes.specs.Volumes.{HoldsBook, IsMeasured, IsPrepared, IsQuiet, Makes, muted};

use crate::held::Held;
use crate::room::Prepared;
use crate::stored_ghost::StoredGhost;
use capture::Memory;
use disk_model::Disk;
use shown::Shown;
use std::alloc::Global;
use warc_journal::{DiskFault, Journal, Place};
use warc_text::info_text;

/// The journal of the volumes, and the book that they hold, without its bytes.
#[derive(Drop)]
pub struct Volumes<D: Disk> {
    pub journal: Journal<D>,
    pub held: Held,
}

impl<D: Disk> Volumes<D> {
    /// The volumes that were found on a disk. Where this is told, their texts are those of a sound book.
    pub fn over(journal: Journal<D>, held: Held, told: &Shown<bool>) -> Volumes<D>
        requires tells { IsTrue told.now.value → IsTrue D.tells }
        requires in_step { IsTrue D.tells → IsInStep D.Disk journal }
        requires texts_are { IsTrue told.now.value → AreVolumeTexts (book_of held) (texts D.Disk journal) }
        requires sound { IsTrue told.now.value → IsSound (book_of held) }
        requires left { IsTrue D.tells → Leaves (D.images (disk_of journal))
            (λ image. Hold (texts D.Disk journal) (warc_files image)) }
        requires measured { IsMeasured journal (book_of held) }
        ensures value { result ≡ record { journal = journal; held = held } }
        ensures holds { HoldsBook D.Disk told.now.value result.journal (book_of result.held) }
        ensures measured { IsMeasured result.journal (book_of result.held) }
    {
        let _ = told;
        Volumes { journal, held }
    }

    /// Prepares a volume, born at a date, to be begun behind the others. Nothing is written.
    pub fn prepare(&mut self, alloc: Global, born: u64) -> Result<Prepared, Memory>
        requires measured { IsMeasured self.old.journal (book_of self.old.held) }
        requires born { InRange born }
        ensures prepared { IfOk result (IsPrepared (book_of self.old.held)) }
        ensures born { IfOk result (λ prepared. prepared.shadow.born ≡ born) }
        ensures space { OnOk result (TakesVolume self.new.held) }
        ensures book { book_of self.new.held ≡ book_of self.old.held }
        ensures journal { self.new.journal ≡ self.old.journal }
    {
        let number = self.journal.volumes();
        let info = info_text(alloc, &self.held.namespace, number, born)?;
        let shadow = self.held.prepare_volume(alloc, born)?;
        Ok(Prepared { shadow, info })
    }

    /// Begins the volume that was prepared, in the room that is there. Refused, the book is as before.
    pub fn begin(&mut self, told: &Shown<bool>, prepared: Prepared) -> Result<(), DiskFault>
        requires prepared { IsPrepared (book_of self.old.held) prepared }
        requires space { TakesVolume self.old.held }
        requires holds { HoldsBook D.Disk told.now.value self.old.journal (book_of self.old.held) }
        requires measured { IsMeasured self.old.journal (book_of self.old.held) }
        requires filled { AreFilled (book_of self.old.held) }
        requires number { volumes self.old.journal < 2 ^ 32 - 1 }
        requires born { InRange prepared.shadow.born }
        ensures book { book_of self.new.held ≡ (if is_ok result
            then with_volume (book_of self.old.held) prepared.shadow.born else book_of self.old.held) }
        ensures space { OnOk result (TakesCapture self.new.held) }
        ensures holds { HoldsBook D.Disk told.now.value self.new.journal (book_of self.new.held) }
        ensures measured { IsMeasured self.new.journal (book_of self.new.held) }
        ensures last_len { last_len self.new.journal
            ≡ (if is_ok result then length prepared.info else last_len self.old.journal) }
        ensures texts { IsTrue D.tells → texts D.Disk self.new.journal
            ≡ (if is_ok result then texts D.Disk self.old.journal ++ prepared.info ∷ [] else texts D.Disk self.old.journal) }
        ensures change { IsTrue D.tells → Changes D.Disk self.old.journal self.new.journal
            (texts D.Disk self.old.journal ++ prepared.info ∷ []) result }
        ensures others { IsTrue D.tells
            → cdxj_files (D.reading (disk_of self.new.journal)) ≡ cdxj_files (D.reading (disk_of self.old.journal)) }
        ensures makes { Makes (muted told.now.value D.Disk) (disk_of self.old.journal) (disk_of self.new.journal)
            (book_of self.old.held) (with_volume (book_of self.old.held) prepared.shadow.born) result }
        ensures faults { CountsFaults (D.faults (disk_of self.old.journal)) (D.faults (disk_of self.new.journal)) result }
    {
        let _ = told;
        let Prepared { shadow, info } = prepared;
        self.journal.roll(info.as_slice())?;
        self.held.add_volume(shadow);
        Ok(())
    }

    /// Adds a capture with its group to the last volume, in the room that is there. Refused, the book is as before.
    pub(crate) fn add(
        &mut self,
        told: &Shown<bool>,
        stored: StoredGhost,
        group: &[u8],
    ) -> Result<Place, DiskFault>
        requires space { TakesCapture self.old.held }
        requires holds { HoldsBook D.Disk told.now.value self.old.journal (book_of self.old.held) }
        requires measured { IsMeasured self.old.journal (book_of self.old.held) }
        requires committed { IsCommitted commit_byte group.now }
        requires group { IsTrue told.now.value → IsGroupText (with_capture (book_of self.old.held) (stored_in stored))
            (length (captures (book_of self.old.held))) group.now }
        requires sound { IsTrue told.now.value → IsSound (with_capture (book_of self.old.held) (stored_in stored)) }
        requires fits { last_len self.old.journal + length group.now < 2 ^ 62 }
        ensures book { book_of self.new.held ≡ (if is_ok result
            then with_capture (book_of self.old.held) (stored_in stored) else book_of self.old.held) }
        ensures holds { HoldsBook D.Disk told.now.value self.new.journal (book_of self.new.held) }
        ensures measured { IsMeasured self.new.journal (book_of self.new.held) }
        ensures last_len { last_len self.new.journal
            ≡ (if is_ok result then last_len self.old.journal + length group.now else last_len self.old.journal) }
        ensures texts { IsTrue D.tells → texts D.Disk self.new.journal
            ≡ (if is_ok result then with_more (texts D.Disk self.old.journal) group.now else texts D.Disk self.old.journal) }
        ensures change { IsTrue D.tells → Changes D.Disk self.old.journal self.new.journal
            (with_more (texts D.Disk self.old.journal) group.now) result }
        ensures place { IfOk result (λ place. place
            ≡ record { volume = volumes self.old.journal - 1; at = last_len self.old.journal; len = length group.now }) }
        ensures others { IsTrue D.tells
            → cdxj_files (D.reading (disk_of self.new.journal)) ≡ cdxj_files (D.reading (disk_of self.old.journal)) }
        ensures makes { Makes (muted told.now.value D.Disk) (disk_of self.old.journal) (disk_of self.new.journal)
            (book_of self.old.held) (with_capture (book_of self.old.held) (stored_in stored)) result }
        ensures faults { CountsFaults (D.faults (disk_of self.old.journal)) (D.faults (disk_of self.new.journal)) result }
    {
        let _ = told;
        let place = self.journal.append(group)?;
        self.held.add_ghost(stored);
        Ok(place)
    }

    /// Fills `into` with the bytes of a volume's text from an offset on. What a call that fails leaves in `into` isn't
    /// said.
    pub fn read(&mut self, volume: u32, at: u64, into: &mut [u8]) -> Result<(), DiskFault>
        requires in_step { IsTrue D.tells → IsInStep D.Disk self.old.journal }
        requires there { IsTrue D.tells → volume < volumes self.old.journal }
        requires in_range { IsTrue D.tells → at + length into.old
            ≤ length (slice_index_or (texts D.Disk self.old.journal) volume []) }
        ensures bytes { IsTrue D.tells → OnOk result (into.new
            ≡ take (length into.old) (drop at (slice_index_or (texts D.Disk self.old.journal) volume []))) }
        ensures held { self.new.held ≡ self.old.held }
        ensures extent { extent_of self.new.journal ≡ extent_of self.old.journal }
        ensures reading { IsTrue D.tells → D.reading (disk_of self.new.journal) ≡ D.reading (disk_of self.old.journal) }
        ensures rests { IsTrue D.tells → Rests D.Disk (disk_of self.old.journal) (disk_of self.new.journal) }
        ensures texts { IsTrue D.tells → texts D.Disk self.new.journal ≡ texts D.Disk self.old.journal }
        ensures in_step { IsTrue D.tells → IsInStep D.Disk self.new.journal }
        ensures holds { (told : Bool) → HoldsBook D.Disk told self.old.journal (book_of self.old.held)
            → HoldsBook D.Disk told self.new.journal (book_of self.new.held) }
        ensures measured { IsMeasured self.old.journal (book_of self.old.held)
            → IsMeasured self.new.journal (book_of self.new.held) }
        ensures quiet { IsQuiet D.Disk (disk_of self.old.journal) (disk_of self.new.journal) }
        ensures faults { CountsFaults (D.faults (disk_of self.old.journal)) (D.faults (disk_of self.new.journal)) result }
    {
        self.journal.read(volume, at, into)
    }
}
