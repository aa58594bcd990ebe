//! The volumes of an archive, read from a disk.
ghost use Rattle.std.specs.Prelude.{◌≡◌, ◌≢◌, ◌+◌, ◌-◌, ◌<◌, ◌≤◌, ◌^◌, IfErr, IfOk, IsTrue, OnErr, OnOk, Result, length};
ghost use Rattle.std.specs.Borrow.{Lends, sem};
ghost use Rattle.capture.specs.Faults.{Rose};
ghost use Rattle.disk_model.specs.Crash.{Leaves};
ghost use Rattle.warc_journal.specs.Extents.{warc_files};
ghost use Rattle.warc_journal.specs.Journals.{IsInStep, Rests, disk_of as disk_of_journal, extent_of as extent_of_journal, texts as texts_of_journal};
ghost use Rattle.warc_journal.specs.Texts.{Hold, with_more};
ghost use Rattle.volume_scan.specs.Scannings.{CountsDisk, Finds, IsDamage, IsHeaded, IsInPlace, begins_at, captures_of, disk_of, file_count, files_in, position_of, texts};
ghost use Rattle.volume_scan.specs.Unread.{unread};
ghost use Rattle.volume_scan.specs.declared.position.Stage.TheVariants.{Opened, Skipped as Skips, Done as IsDone};

mod steps;

use crate::position::{Position, Stage};
use crate::window::Window;
use crate::{Found, ScanFault};
use disk_model::Disk;
use std::alloc::Global;
use uuid::Uuid;
use warc_journal::{DiskFault, Extent, Further, Journal, sync_volumes};

/// The volumes of an archive on a disk, as they are read: one warcinfo or group after another, from the first file on.
#[derive(Drop)]
pub struct Scanning<D> {
    disk: D,
    /// How many Warc files there are.
    files: u32,
    position: Position,
    /// The length of the last volume's file, in bytes.
    len: u64,
    window: Window,
}

impl<D: Disk> Scanning<D> {
    ghost use Rattle.volume_scan.specs.contracts.scanning.Scanning.{the_row};

    /// Syncs each Warc file, so that a crash leaves just what is read, and begins before the first one. Refused, the disk
    /// is given back.
    pub fn start(alloc: Global, disk: D) -> Result<Scanning<D>, (DiskFault, D)>
        ensures begins { IfOk result (λ scanning. position_of scanning ≡ begins_at) }
        ensures in_place { IfOk result (λ scanning. IsInPlace D.Disk scanning) }
        ensures count { IfOk result (λ scanning. IsTrue D.tells → file_count scanning ≡ length (warc_files (D.reading disk))) }
        ensures rests { IfOk result (λ scanning. IsTrue D.tells → Rests D.Disk disk (disk_of scanning)) }
        ensures steady { IfOk result (λ scanning. D.faults (disk_of scanning) ≡ D.faults disk) }
        ensures given_back { IfErr result (λ refused. IsTrue D.tells → Rests D.Disk disk refused.1) }
        ensures rose { IfErr result (λ refused. Rose (D.faults disk) (D.faults refused.1)) }
    {
        let mut disk = disk;
        match sync_volumes(&mut disk) {
            Ok(files) => Ok(Scanning {
                disk,
                files,
                position: Position {
                    extent: Extent {
                        volumes: 0,
                        end: 0,
                        is_dirty: false,
                        further: Further::Absent,
                    },
                    captures: 0,
                    namespace: Uuid::nil(),
                    stage: Stage::Within,
                },
                len: 0,
                window: Window::beside(alloc, files),
            }),
            Err(fault) => Err((fault, disk)),
        }
    }

    /// How many Warc files there are.
    pub fn files(&self) -> u32
        ensures { result ≡ file_count self.now }
    {
        self.files
    }

    /// How many captures were read or skipped.
    pub fn captures(&self) -> u32
        ensures { result ≡ captures_of self.now }
    {
        self.position.captures
    }

    /// The disk's count of faults.
    pub fn faults(&self) -> u64
        ensures { result ≡ D.faults (disk_of self.now) }
    {
        self.disk.faults()
    }

    /// What stands next: the warcinfo of a volume, a group behind what was read, or the end, which is told again and again.
    /// It only reads, and no byte twice but after a refusal.
    ///
    /// `Damaged` comes where the files can't go on so, and then they hold no archive that begins with what was read.
    /// Refused, it stands where it stood, and can be asked again.
    pub fn step(&mut self, alloc: Global) -> Result<Found, ScanFault>
        requires in_place { IsInPlace D.Disk self.old }
        requires fewer { captures_of self.old < 2 ^ 32 - 1 }
        ensures finds { IfOk result (Finds D.Disk self.old self.new) }
        ensures headed { IfOk result IsHeaded }
        ensures damage { IfErr result (IsDamage D.Disk self.old) }
        ensures stays { OnErr result (position_of self.new ≡ position_of self.old) }
        ensures in_place { IsInPlace D.Disk self.new }
        ensures count { file_count self.new ≡ file_count self.old }
        ensures rests { IsTrue D.tells → Rests D.Disk (disk_of self.old) (disk_of self.new) }
        ensures faults { CountsDisk (D.faults (disk_of self.old)) (D.faults (disk_of self.new)) result }
    {
        match self.position.stage {
            Stage::Done => Ok(Found::End),
            Stage::Skipped => self.begin_volume(alloc, false),
            Stage::Within => self.go_on(alloc),
            Stage::Opened => self.go_on(alloc),
        }
    }

    /// Doesn't read the rest of the volume that was begun, which counts as so many captures. The next step goes on with the
    /// next file, in which a volume is due.
    pub fn skip(&mut self, captures: u32)
        requires in_place { IsInPlace D.Disk self.old }
        requires opened { (position_of self.old).stage ≡ Opened }
        requires another { (position_of self.old).extent.volumes < file_count self.old }
        requires fewer { captures_of self.old + captures < 2 ^ 32 - 1 }
        ensures position { position_of self.new ≡ record (position_of self.old) {
          extent = record (position_of self.old).extent { end = (position_of self.new).extent.end };
          captures = captures_of self.old + captures;
          stage = Skips;
        } }
        ensures read { IsTrue D.tells → texts D.Disk self.new
            ≡ with_more (texts D.Disk self.old) (unread (position_of self.old) (files_in D.Disk self.old)) }
        ensures in_place { IsInPlace D.Disk self.new }
        ensures count { file_count self.new ≡ file_count self.old }
        ensures disk { disk_of self.new ≡ disk_of self.old }
    {
        self.position.extent.end = self.len;
        self.position.captures += captures;
        self.position.stage = Stage::Skipped;
    }

    /// Lends the disk, for work on files of another kind between two steps.
    pub fn disk(&mut self) -> &mut D
        ensures value { result.now ≡ disk_of self.old }
        ensures* writes_back { sem 𝓛 (Lends (the_row D.row) D.row self.entry result
            (λ w. record self.old { disk = w })) }
    {
        &mut self.disk
    }

    /// A journal over what was read, once the end was answered. Before it adds a text it takes away what stands behind that.
    pub fn finish(self) -> Journal<D>
        requires in_place { IsInPlace D.Disk self }
        requires done { (position_of self).stage ≡ IsDone }
        ensures disk { disk_of_journal result ≡ disk_of self }
        ensures extent { extent_of_journal result ≡ (position_of self).extent }
        ensures in_step { IsTrue D.tells → IsInStep D.Disk result }
        ensures held { IsTrue D.tells → Leaves (D.images (disk_of self))
            (λ image. Hold (texts_of_journal D.Disk result) (warc_files image)) }
    {
        let Scanning {
            disk,
            files: _,
            position,
            len: _,
            window: _,
        } = self;
        Journal::over(disk, position.extent)
    }

    /// The disk, where it isn't read on.
    pub fn into_disk(self) -> D
        ensures { result ≡ disk_of self }
    {
        let Scanning {
            disk,
            files: _,
            position: _,
            len: _,
            window: _,
        } = self;
        disk
    }
}
