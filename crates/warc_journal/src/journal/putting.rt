//! How a text is put behind the others, once the files are clean.
ghost use Rattle.std.specs.Prelude.{◌≡◌, ◌+◌, ◌-◌, ◌<◌, ◌≤◌, ◌^◌, ◌++◌, ◌∷◌, [], false, length, IsTrue, IfOk, OnOk, is_ok, if◌then◌else◌};
ghost use Rattle.capture.specs.Faults.{CountsFaults};
ghost use Rattle.capture.specs.Tails.{IsCommitted};
ghost use Rattle.warc_text.specs.StandsFor.{commit_byte};
ghost use Rattle.warc_journal.specs.Extents.{IsClean, MakesNoFile};
ghost use Rattle.warc_journal.specs.Journals.{Changes, IsInStep, disk_of, extent_of, last_len, texts, volumes};
ghost use Rattle.warc_journal.specs.Texts.{with_more};
ghost use Rattle.warc_journal.specs.declared.extent.Further.TheVariants.{Absent, Empty};

use super::Journal;
use crate::{DiskFault, Extent, Further, Place};
use disk_model::Disk;

impl<D: Disk> Journal<D> {
    /// Puts a text behind that of the last volume.
    pub(super) fn put(&mut self, text: &[u8]) -> Result<Place, DiskFault>
        requires in_step { IsTrue D.tells → IsInStep D.Disk self.old }
        requires clean { IsClean (extent_of self.old) }
        requires volume { 0 < volumes self.old }
        requires committed { IsCommitted commit_byte text.now }
        requires fits { last_len self.old + length text.now < 2 ^ 63 }
        ensures change { IsTrue D.tells → Changes D.Disk self.old self.new
            (with_more (texts D.Disk self.old) text.now) result }
        ensures in_step { IsTrue D.tells → IsInStep D.Disk self.new }
        ensures volumes { volumes self.new ≡ volumes self.old }
        ensures last_len { last_len self.new
            ≡ (if is_ok result then last_len self.old + length text.now else last_len self.old) }
        ensures place { IfOk result (λ place. place
            ≡ record { volume = volumes self.old - 1; at = last_len self.old; len = length text.now }) }
        ensures clean { OnOk result (IsClean (extent_of self.new)) }
        ensures no_file { IsTrue D.tells → MakesNoFile (D.reading (disk_of self.old)) (D.reading (disk_of self.new)) }
        ensures quick { D.moment (disk_of self.new) ≤ D.moment (disk_of self.old) + 6 }
        ensures faults { CountsFaults (D.faults (disk_of self.old)) (D.faults (disk_of self.new)) result }
    {
        let mut last = self.extent.last_file();
        let place = Place {
            volume: last.file,
            at: last.end,
            len: text.len() as u64,
        };
        self.extent.is_dirty = true;
        last.append(&mut self.disk, text)?;
        self.extent.end += place.len;
        self.extent.is_dirty = false;
        Ok(place)
    }

    /// Puts the first text of a new volume into the further file, which is empty.
    pub(super) fn begin_volume(&mut self, info: &[u8]) -> Result<(), DiskFault>
        requires in_step { IsTrue D.tells → IsInStep D.Disk self.old }
        requires clean { (extent_of self.old).is_dirty ≡ false }
        requires empty { (extent_of self.old).further ≡ Empty }
        requires number { volumes self.old < 2 ^ 32 - 1 }
        requires committed { IsCommitted commit_byte info.now }
        requires fits { length info.now < 2 ^ 63 }
        ensures change { IsTrue D.tells → Changes D.Disk self.old self.new
            (texts D.Disk self.old ++ info.now ∷ []) result }
        ensures in_step { IsTrue D.tells → IsInStep D.Disk self.new }
        ensures volumes { volumes self.new ≡ (if is_ok result then volumes self.old + 1 else volumes self.old) }
        ensures last_len { last_len self.new ≡ (if is_ok result then length info.now else last_len self.old) }
        ensures clean { OnOk result ((extent_of self.new).is_dirty ≡ false) }
        ensures absent { OnOk result ((extent_of self.new).further ≡ Absent) }
        ensures quick { D.moment (disk_of self.new) ≤ D.moment (disk_of self.old) + 6 }
        ensures faults { CountsFaults (D.faults (disk_of self.old)) (D.faults (disk_of self.new)) result }
    {
        let mut file = self.extent.further_file(false);
        self.extent.further = Further::Unknown;
        file.append(&mut self.disk, info)?;
        self.extent = Extent {
            volumes: self.extent.volumes + 1,
            end: info.len() as u64,
            is_dirty: false,
            further: Further::Absent,
        };
        Ok(())
    }
}
