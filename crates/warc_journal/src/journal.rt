//! The journal of an archive's volumes.
ghost use Rattle.std.specs.Prelude.{◌≡◌, ◌+◌, ◌-◌, ◌<◌, ◌≤◌, ◌^◌, ◌∷◌, ◌++◌, [], IsTrue, IfOk, OnOk, is_ok, if◌then◌else◌, length, slice_index_or, take, drop, Some};
ghost use Rattle.std.specs.Borrow.{Lends, sem};
ghost use Rattle.capture.specs.Faults.{CountsFaults};
ghost use Rattle.capture.specs.Tails.{IsCommitted};
ghost use Rattle.disk_model.specs.Crash.{Leaves};
ghost use Rattle.warc_text.specs.StandsFor.{commit_byte};
ghost use Rattle.warc_journal.specs.Texts.{Hold, with_more};
ghost use Rattle.warc_journal.specs.Extents.{AreVolumesSynced, IsClean, IsFound, MakesNoFile, further_mending, mending, warc_files};
ghost use Rattle.warc_journal.specs.declared.extent.Further.TheVariants.{Absent};
ghost use Rattle.warc_journal.specs.Journals.{Changes, IsInStep, Rests, disk_of, extent_of, last_len, texts, volumes};

mod preparing;
mod putting;

use crate::{DiskFault, Extent, Place};
use disk_model::{Disk, Kind, MemoryDisk};

/// The volumes of an archive on a disk.
#[derive(Drop)]
pub struct Journal<D> {
    disk: D,
    extent: Extent,
}

impl<D: Disk> Journal<D> {
    ghost use Rattle.warc_journal.specs.contracts.journal.Journal.{the_row};

    /// A journal over a disk whose Warc files are synced and were found to hold texts that reach so far.
    pub fn over(disk: D, found: Extent) -> Journal<D>
        requires synced { IsTrue D.tells → AreVolumesSynced (D.reading disk) (D.images disk) }
        requires found { IsTrue D.tells → IsFound found (warc_files (D.reading disk)) }
        ensures disk { disk_of result ≡ disk }
        ensures extent { extent_of result ≡ found }
        ensures in_step { IsTrue D.tells → IsInStep D.Disk result }
        ensures held { IsTrue D.tells → Leaves (D.images disk) (λ image. Hold (texts D.Disk result) (warc_files image)) }
    {
        Journal {
            disk,
            extent: found,
        }
    }

    /// How many volumes there are.
    pub fn volumes(&self) -> u32
        ensures { result ≡ volumes self.now }
    {
        self.extent.volumes
    }

    /// Where the text of the last volume ends, in bytes: 0 without a volume.
    pub fn last_len(&self) -> u64
        ensures length { result ≡ last_len self.now }
        ensures none { IsTrue D.tells → IsInStep D.Disk self.now → volumes self.now ≡ 0 → result ≡ 0 }
    {
        self.extent.end
    }

    /// The disk's count of faults.
    pub fn faults(&self) -> u64
        ensures { result ≡ D.faults (disk_of self.now) }
    {
        self.disk.faults()
    }

    /// Adds a text, a finished group, behind that of the last volume. Before that, what may stand behind the texts is
    /// taken away, in the last volume's file and in a further one.
    ///
    /// Refused, the texts are as before, and the next call that adds a text takes away what may stand behind them.
    pub fn append(&mut self, text: &[u8]) -> Result<Place, DiskFault>
        requires in_step { IsTrue D.tells → IsInStep D.Disk self.old }
        requires volume { 0 < volumes self.old }
        requires committed { IsCommitted commit_byte text.now }
        requires fits { last_len self.old + length text.now < 2 ^ 63 }
        ensures change { IsTrue D.tells → Changes D.Disk self.old self.new
            (with_more (texts D.Disk self.old) text.now) result }
        ensures in_step { IsTrue D.tells → IsInStep D.Disk self.new }
        ensures volumes { volumes self.new ≡ volumes self.old }
        ensures last_len { last_len self.new
            ≡ (if is_ok result then last_len self.old + length text.now else last_len self.old) }
        ensures place { IfOk result (λ place. place
            ≡ record { volume = volumes self.old - 1; at = last_len self.old; len = length text.now }) }
        ensures clean { OnOk result (IsClean (extent_of self.new)) }
        ensures no_file { IsTrue D.tells → MakesNoFile (D.reading (disk_of self.old)) (D.reading (disk_of self.new)) }
        ensures quick { D.moment (disk_of self.new) ≤ D.moment (disk_of self.old) + mending (extent_of self.old) + 6 }
        ensures faults { CountsFaults (D.faults (disk_of self.old)) (D.faults (disk_of self.new)) result }
    {
        self.clean()?;
        self.put(text)
    }

    /// Adds a volume, which begins with this text, a warcinfo. It uses a further file that is there, else it makes one.
    /// Before that, what may stand behind the texts is taken away, as by `append`.
    ///
    /// Refused, the texts are as before.
    pub fn roll(&mut self, info: &[u8]) -> Result<(), DiskFault>
        requires in_step { IsTrue D.tells → IsInStep D.Disk self.old }
        requires number { volumes self.old < 2 ^ 32 - 1 }
        requires committed { IsCommitted commit_byte info.now }
        requires fits { length info.now < 2 ^ 63 }
        ensures change { IsTrue D.tells → Changes D.Disk self.old self.new
            (texts D.Disk self.old ++ info.now ∷ []) result }
        ensures in_step { IsTrue D.tells → IsInStep D.Disk self.new }
        ensures volumes { volumes self.new ≡ (if is_ok result then volumes self.old + 1 else volumes self.old) }
        ensures last_len { last_len self.new ≡ (if is_ok result then length info.now else last_len self.old) }
        ensures clean { OnOk result (IsClean (extent_of self.new)) }
        ensures absent { OnOk result ((extent_of self.new).further ≡ Absent) }
        ensures quick { D.moment (disk_of self.new) ≤ D.moment (disk_of self.old) + mending (extent_of self.old) + 7 }
        ensures faults { CountsFaults (D.faults (disk_of self.old)) (D.faults (disk_of self.new)) result }
    {
        self.clean()?;
        self.make_further()?;
        self.begin_volume(info)
    }

    /// Takes away what may stand behind the texts, whether the journal knows of anything there or not.
    pub fn repair(&mut self) -> Result<(), DiskFault>
        requires { IsTrue D.tells → IsInStep D.Disk self.old }
        ensures change { IsTrue D.tells → Changes D.Disk self.old self.new
            (texts D.Disk self.old) result }
        ensures in_step { IsTrue D.tells → IsInStep D.Disk self.new }
        ensures volumes { volumes self.new ≡ volumes self.old }
        ensures last_len { last_len self.new ≡ last_len self.old }
        ensures clean { OnOk result (IsClean (extent_of self.new)) }
        ensures no_file { IsTrue D.tells → MakesNoFile (D.reading (disk_of self.old)) (D.reading (disk_of self.new)) }
        ensures quick { D.moment (disk_of self.new) ≤ D.moment (disk_of self.old) + further_mending (extent_of self.old).further + 7 }
        ensures faults { CountsFaults (D.faults (disk_of self.old)) (D.faults (disk_of self.new)) result }
    {
        self.clear_further()?;
        self.mend_last()
    }

    /// Fills `into` with the bytes of a volume's file from an offset on. What a call that fails leaves in `into` isn't
    /// said.
    #[tactic(auto, unfolding(disk_model::specs::Image::file_of))]
    pub fn read(&mut self, volume: u32, at: u64, into: &mut [u8]) -> Result<(), DiskFault>
        requires there { IsTrue D.tells → volume < length (warc_files (D.reading (disk_of self.old))) }
        requires in_range { IsTrue D.tells → at + length into.old
            ≤ length (slice_index_or (warc_files (D.reading (disk_of self.old))) volume []) }
        ensures bytes { IsTrue D.tells → OnOk result (into.new
            ≡ take (length into.old) (drop at (slice_index_or (warc_files (D.reading (disk_of self.old))) volume []))) }
        ensures text { IsTrue D.tells → IsInStep D.Disk self.old → volume < volumes self.old
            → at + length into.old ≤ length (slice_index_or (texts D.Disk self.old) volume [])
            → OnOk result (into.new ≡ take (length into.old) (drop at (slice_index_or (texts D.Disk self.old) volume []))) }
        ensures rests { IsTrue D.tells → Rests D.Disk
            (disk_of self.old) (disk_of self.new) }
        ensures extent { extent_of self.new ≡ extent_of self.old }
        ensures in_step { IsTrue D.tells → IsInStep D.Disk self.old → IsInStep D.Disk self.new }
        ensures faults { CountsFaults (D.faults (disk_of self.old)) (D.faults (disk_of self.new)) result }
    {
        self.disk.read(Kind::Warc, volume, at, into)?;
        Ok(())
    }

    /// The length of a volume's file in bytes, with what may stand behind its text.
    #[tactic(auto, unfolding(disk_model::specs::Image::file_of))]
    pub fn len(&mut self, volume: u32) -> Result<u64, DiskFault>
        requires { IsTrue D.tells → volume < length (warc_files (D.reading (disk_of self.old))) }
        ensures length { IsTrue D.tells → IfOk result (λ len. len
            ≡ length (slice_index_or (warc_files (D.reading (disk_of self.old))) volume [])) }
        ensures rests { IsTrue D.tells → Rests D.Disk
            (disk_of self.old) (disk_of self.new) }
        ensures extent { extent_of self.new ≡ extent_of self.old }
        ensures in_step { IsTrue D.tells → IsInStep D.Disk self.old → IsInStep D.Disk self.new }
        ensures faults { CountsFaults (D.faults (disk_of self.old)) (D.faults (disk_of self.new)) result }
    {
        let len = self.disk.len(Kind::Warc, volume)?;
        Ok(len)
    }

    /// Lends the disk, for work on other files.
    pub fn disk(&mut self) -> &mut D
        ensures value { result.now ≡ disk_of self.old }
        ensures* writes_back { sem 𝓛 (Lends (the_row D.row) D.row self.entry result
            (λ w. record self.old { disk = w })) }
    {
        &mut self.disk
    }

    /// The disk, once the journal isn't needed any more.
    pub fn into_disk(self) -> D
        ensures { result ≡ disk_of self }
    {
        let Journal { disk, extent: _ } = self;
        disk
    }
}

impl Journal<MemoryDisk> {
    /// The same journal with a fuse on its disk: so many further calls of the disk pass, and then each fails.
    pub fn fused(self, calls: u64) -> Journal<MemoryDisk>
        ensures { result ≡ record self { disk = record self.disk { fuse = Some calls } } }
    {
        let Journal { disk, extent } = self;
        Journal {
            disk: disk.fused(calls),
            extent,
        }
    }
}
