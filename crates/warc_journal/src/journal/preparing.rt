//! How the files are made ready for one more text: what may stand behind the texts is taken away.
ghost use Rattle.std.specs.Prelude.{◌≡◌, ◌≢◌, ◌↔◌, ◌+◌, ◌<◌, ◌≤◌, false, length, IsTrue, IfOk, OnOk};
ghost use Rattle.capture.specs.Faults.{CountsFaults};
ghost use Rattle.warc_journal.specs.Journals.{IsInStep, Prepares, disk_of, extent_of, last_len, volumes};
ghost use Rattle.warc_journal.specs.Extents.{IsClean, MakesNoFile, further_mending, mending, warc_files};
ghost use Rattle.warc_journal.specs.declared.extent.Further.TheVariants.{Empty, Unknown};

use super::Journal;
use crate::{DiskFault, Further};
use disk_model::{Disk, Kind};

impl<D: Disk> Journal<D> {
    /// Takes away what may stand behind the texts.
    pub(super) fn clean(&mut self) -> Result<(), DiskFault>
        requires { IsTrue D.tells → IsInStep D.Disk self.old }
        ensures prepared { IsTrue D.tells → Prepares D.Disk self.old self.new }
        ensures in_step { IsTrue D.tells → IsInStep D.Disk self.new }
        ensures volumes { volumes self.new ≡ volumes self.old }
        ensures last_len { last_len self.new ≡ last_len self.old }
        ensures clean { OnOk result (IsClean (extent_of self.new)) }
        ensures no_file { IsTrue D.tells → MakesNoFile (D.reading (disk_of self.old)) (D.reading (disk_of self.new)) }
        ensures quick { D.moment (disk_of self.new) ≤ D.moment (disk_of self.old) + mending (extent_of self.old) }
        ensures faults { CountsFaults (D.faults (disk_of self.old)) (D.faults (disk_of self.new)) result }
    {
        self.clear_further()?;
        if self.extent.is_dirty {
            return self.mend_last();
        }
        Ok(())
    }

    /// Takes away what may stand in a further file. It comes before the last volume's file: were that mended first, a
    /// crash could leave a tail there, and behind it a volume whose roll was refused.
    pub(super) fn clear_further(&mut self) -> Result<(), DiskFault>
        requires { IsTrue D.tells → IsInStep D.Disk self.old }
        ensures prepared { IsTrue D.tells → Prepares D.Disk self.old self.new }
        ensures in_step { IsTrue D.tells → IsInStep D.Disk self.new }
        ensures volumes { volumes self.new ≡ volumes self.old }
        ensures last_len { last_len self.new ≡ last_len self.old }
        ensures is_dirty { (extent_of self.new).is_dirty ≡ (extent_of self.old).is_dirty }
        ensures known { OnOk result ((extent_of self.new).further ≢ Unknown) }
        ensures no_file { IsTrue D.tells → MakesNoFile (D.reading (disk_of self.old)) (D.reading (disk_of self.new)) }
        ensures quick { D.moment (disk_of self.new) ≤ D.moment (disk_of self.old) + further_mending (extent_of self.old).further }
        ensures faults { CountsFaults (D.faults (disk_of self.old)) (D.faults (disk_of self.new)) result }
    {
        match self.extent.further {
            Further::Absent => Ok(()),
            Further::Empty => Ok(()),
            Further::Unknown => {
                if self.has_further()? {
                    return self.mend_further();
                }
                self.extent.further = Further::Absent;
                Ok(())
            }
        }
    }

    /// Whether there is a file behind the last volume's.
    fn has_further(&mut self) -> Result<bool, DiskFault>
        requires { IsTrue D.tells → IsInStep D.Disk self.old }
        ensures there { IsTrue D.tells → IfOk result (λ is. IsTrue is
            ↔ volumes self.new < length (warc_files (D.reading (disk_of self.new)))) }
        ensures prepared { IsTrue D.tells → Prepares D.Disk self.old self.new }
        ensures in_step { IsTrue D.tells → IsInStep D.Disk self.new }
        ensures extent { extent_of self.new ≡ extent_of self.old }
        ensures no_file { IsTrue D.tells → MakesNoFile (D.reading (disk_of self.old)) (D.reading (disk_of self.new)) }
        ensures quick { D.moment (disk_of self.new) ≤ D.moment (disk_of self.old) + 1 }
        ensures faults { CountsFaults (D.faults (disk_of self.old)) (D.faults (disk_of self.new)) result }
    {
        let count = self.disk.files(Kind::Warc)?;
        Ok(self.extent.volumes < count)
    }

    /// Takes away what stands in the further file, which is there.
    fn mend_further(&mut self) -> Result<(), DiskFault>
        requires in_step { IsTrue D.tells → IsInStep D.Disk self.old }
        requires unknown { (extent_of self.old).further ≡ Unknown }
        requires there { IsTrue D.tells → volumes self.old < length (warc_files (D.reading (disk_of self.old))) }
        ensures prepared { IsTrue D.tells → Prepares D.Disk self.old self.new }
        ensures in_step { IsTrue D.tells → IsInStep D.Disk self.new }
        ensures volumes { volumes self.new ≡ volumes self.old }
        ensures last_len { last_len self.new ≡ last_len self.old }
        ensures is_dirty { (extent_of self.new).is_dirty ≡ (extent_of self.old).is_dirty }
        ensures empty { OnOk result ((extent_of self.new).further ≡ Empty) }
        ensures no_file { IsTrue D.tells → MakesNoFile (D.reading (disk_of self.old)) (D.reading (disk_of self.new)) }
        ensures quick { D.moment (disk_of self.new) ≤ D.moment (disk_of self.old) + 7 }
        ensures faults { CountsFaults (D.faults (disk_of self.old)) (D.faults (disk_of self.new)) result }
    {
        self.extent.further_file(true).mend(&mut self.disk)?;
        self.extent.further = Further::Empty;
        Ok(())
    }

    /// Takes away what may stand behind the text of the last volume.
    pub(super) fn mend_last(&mut self) -> Result<(), DiskFault>
        requires in_step { IsTrue D.tells → IsInStep D.Disk self.old }
        requires known { (extent_of self.old).further ≢ Unknown }
        ensures prepared { IsTrue D.tells → Prepares D.Disk self.old self.new }
        ensures in_step { IsTrue D.tells → IsInStep D.Disk self.new }
        ensures volumes { volumes self.new ≡ volumes self.old }
        ensures last_len { last_len self.new ≡ last_len self.old }
        ensures further { (extent_of self.new).further ≡ (extent_of self.old).further }
        ensures clean { OnOk result ((extent_of self.new).is_dirty ≡ false) }
        ensures no_file { IsTrue D.tells → MakesNoFile (D.reading (disk_of self.old)) (D.reading (disk_of self.new)) }
        ensures quick { D.moment (disk_of self.new) ≤ D.moment (disk_of self.old) + 7 }
        ensures faults { CountsFaults (D.faults (disk_of self.old)) (D.faults (disk_of self.new)) result }
    {
        if self.extent.volumes == 0 {
            self.extent.is_dirty = false;
            return Ok(());
        }
        let mut last = self.extent.last_file();
        self.extent.is_dirty = true;
        last.mend(&mut self.disk)?;
        self.extent.is_dirty = false;
        Ok(())
    }

    /// Makes a further file, where there is none.
    pub(super) fn make_further(&mut self) -> Result<(), DiskFault>
        requires in_step { IsTrue D.tells → IsInStep D.Disk self.old }
        requires clean { IsClean (extent_of self.old) }
        ensures prepared { IsTrue D.tells → Prepares D.Disk self.old self.new }
        ensures in_step { IsTrue D.tells → IsInStep D.Disk self.new }
        ensures volumes { volumes self.new ≡ volumes self.old }
        ensures last_len { last_len self.new ≡ last_len self.old }
        ensures clean { (extent_of self.new).is_dirty ≡ false }
        ensures empty { OnOk result ((extent_of self.new).further ≡ Empty) }
        ensures quick { D.moment (disk_of self.new) ≤ D.moment (disk_of self.old) + 1 }
        ensures faults { CountsFaults (D.faults (disk_of self.old)) (D.faults (disk_of self.new)) result }
    {
        match self.extent.further {
            Further::Absent => {
                self.extent.further = Further::Unknown;
                self.disk.create(Kind::Warc)?;
                self.extent.further = Further::Empty;
                Ok(())
            }
            Further::Empty => Ok(()),
            Further::Unknown => unreachable!(),
        }
    }
}
