//! The parts of a step: what stands next, and how the position moves on.
ghost use Rattle.std.specs.Prelude.{◌≡◌, ◌≢◌, ◌+◌, ◌-◌, ◌<◌, ◌^◌, [], IfOk, IsTrue, OnOk, length};
ghost use Rattle.warc_scan.specs.Answers.{BeginsWithGroup};
ghost use Rattle.record_opening.specs.InfoAnswers.{BeginsWithInfo};
ghost use Rattle.volume_scan.specs.steps.Next.{FitsGroup, FitsInfo, HasInfoText, IsNextGroup, IsNextInfo, IsFurther};
ghost use Rattle.warc_scan.specs.Headed.{HasItsParts};
ghost use Rattle.volume_scan.specs.Placed.{HasGroupText};
ghost use Rattle.volume_scan.specs.Scannings.{Finds, IsHeaded, IsInPlace, captures_of, disk_of, file_count, files_in, position_of};
ghost use Rattle.volume_scan.specs.steps.Moves.{Comes, Keeps, Moves};
ghost use Rattle.volume_scan.specs.Unread.{IsBehind, IsFurthest, file_at, unread};
ghost use Rattle.volume_scan.specs.steps.Readings.{CountsRead};
ghost use Rattle.volume_scan.specs.declared.position.Stage.TheVariants.{Done as IsDone, Skipped as Skips};

use super::Scanning;
use crate::asking::{read_group, read_info};
use crate::next::{NextGroup, NextInfo};
use crate::position::Stage;
use crate::{Found, ScanFault};
use disk_model::Disk;
use std::alloc::Global;
use uuid::Uuid;
use warc_journal::{Further, Place};
use warc_scan::HeadedGroup;

impl<D: Disk> Scanning<D> {
    /// What stands behind what was read: a group, or what a volume's end may be followed by.
    pub(super) fn go_on(&mut self, alloc: Global) -> Result<Found, ScanFault>
        requires in_place { IsInPlace D.Disk self.old }
        requires fewer { captures_of self.old < 2 ^ 32 - 1 }
        requires not_done { (position_of self.old).stage ≢ IsDone }
        ensures comes { Comes D.Disk self.old self.new result }
        ensures headed { IfOk result IsHeaded }
    {
        if self.position.extent.volumes == 0 {
            return self.begin_volume(alloc, false);
        }
        let last = self.position.extent.volumes - 1;
        match self.next_group(alloc, last)? {
            NextGroup::Group(read) => Ok(self.pass_group(last, read)),
            NextGroup::Nothing => self.begin_volume(alloc, false),
            NextGroup::Tail => self.begin_volume(alloc, true),
            NextGroup::Damaged => Err(ScanFault::Damaged {
                file: last,
                place: self.position.extent.end,
            }),
        }
    }

    /// What stands in the last volume's file behind what was read.
    fn next_group(&mut self, alloc: Global, last: u32) -> Result<NextGroup, ScanFault>
        requires in_place { IsInPlace D.Disk self.old }
        requires last { last + 1 ≡ (position_of self.old).extent.volumes }
        ensures next { IsTrue D.tells → IfOk result (IsNextGroup (position_of self.old).namespace (captures_of self.old)
            (unread (position_of self.old) (files_in D.Disk self.old))) }
        ensures fits { IfOk result (FitsGroup (position_of self.old).namespace (captures_of self.old)
            (2 ^ 64 - 1 - (position_of self.old).extent.end)) }
        ensures keeps { Keeps D.Disk self.old self.new }
        ensures faults { CountsRead (D.faults (disk_of self.old)) (D.faults (disk_of self.new)) result }
    {
        let position = self.position;
        let place = position.extent.end;
        self.window.go_to(&mut self.disk, last, place)?;
        read_group(
            alloc,
            &mut self.disk,
            &mut self.window,
            place,
            &position.namespace,
            position.captures,
        )
    }

    /// What the file behind the last volume's holds.
    fn next_info(&mut self, alloc: Global, volume: u32) -> Result<NextInfo, ScanFault>
        requires in_place { IsInPlace D.Disk self.old }
        requires volume { volume ≡ (position_of self.old).extent.volumes }
        requires there { volume < file_count self.old }
        ensures next { IsTrue D.tells → IfOk result (IsNextInfo volume (file_at (files_in D.Disk self.old) volume)) }
        ensures fits { IfOk result (FitsInfo volume) }
        ensures len { IsTrue D.tells → OnOk result (self.new.window.len ≡ length (file_at (files_in D.Disk self.old) volume)) }
        ensures keeps { Keeps D.Disk self.old self.new }
        ensures faults { CountsRead (D.faults (disk_of self.old)) (D.faults (disk_of self.new)) result }
    {
        self.window.go_to(&mut self.disk, volume, 0)?;
        read_info(alloc, &mut self.disk, &mut self.window, volume)
    }

    /// A volume begins in the next file, or the end has come. `is_dirty`: a tail stands behind what was read of the last
    /// volume, else nothing does.
    pub(super) fn begin_volume(&mut self, alloc: Global, is_dirty: bool) -> Result<Found, ScanFault>
        requires in_place { IsInPlace D.Disk self.old }
        requires not_done { (position_of self.old).stage ≢ IsDone }
        requires behind { IsTrue D.tells → IsBehind is_dirty (unread (position_of self.old) (files_in D.Disk self.old)) }
        requires volume { IsTrue is_dirty → 0 < (position_of self.old).extent.volumes }
        ensures comes { Comes D.Disk self.old self.new result }
        ensures headed { IfOk result IsHeaded }
    {
        let volume = self.position.extent.volumes;
        if volume >= self.files {
            return Ok(self.end(is_dirty, Further::Absent));
        }
        match self.next_info(alloc, volume)? {
            NextInfo::Info {
                namespace,
                born,
                len,
            } => {
                if is_dirty {
                    return Err(ScanFault::Damaged {
                        file: volume - 1,
                        place: self.position.extent.end,
                    });
                }
                Ok(self.open(volume, namespace, born, len))
            }
            NextInfo::Nothing => self.end_before(volume, is_dirty, Further::Empty),
            NextInfo::Tail => self.end_before(volume, is_dirty, Further::Unknown),
            NextInfo::Damaged => Err(ScanFault::Damaged {
                file: volume,
                place: 0,
            }),
        }
    }

    /// The end, before a file that holds nothing or a tail. It has to be the last one, and a volume that was skipped has to
    /// be followed by another.
    fn end_before(
        &mut self,
        file: u32,
        is_dirty: bool,
        further: Further,
    ) -> Result<Found, ScanFault>
        requires in_place { IsInPlace D.Disk self.old }
        requires not_done { (position_of self.old).stage ≢ IsDone }
        requires file { file ≡ (position_of self.old).extent.volumes }
        requires there { file < file_count self.old }
        requires behind { IsTrue D.tells → IsBehind is_dirty (unread (position_of self.old) (files_in D.Disk self.old)) }
        requires holds { IsTrue D.tells → IsFurther further (file_at (files_in D.Disk self.old) file) }
        ensures comes { Comes D.Disk self.old self.new result }
        ensures headed { IfOk result IsHeaded }
    {
        if let Stage::Skipped = self.position.stage {
            return Err(ScanFault::Damaged { file, place: 0 });
        }
        let last = self.files - 1;
        if file < last {
            return Err(ScanFault::Damaged { file, place: 0 });
        }
        Ok(self.end(is_dirty, further))
    }

    /// Goes past a group, which stands behind what was read of the last volume.
    fn pass_group(&mut self, last: u32, read: HeadedGroup) -> Found
        requires in_place { IsInPlace D.Disk self.old }
        requires last { last + 1 ≡ (position_of self.old).extent.volumes }
        requires fewer { captures_of self.old < 2 ^ 32 - 1 }
        requires fits { HasGroupText (position_of self.old).namespace (captures_of self.old)
            (2 ^ 64 - 1 - (position_of self.old).extent.end) read.group }
        requires headed { HasItsParts read }
        requires next { IsTrue D.tells → BeginsWithGroup (position_of self.old).namespace (captures_of self.old)
            (unread (position_of self.old) (files_in D.Disk self.old)) read.group }
        ensures finds { Finds D.Disk self.old self.new result }
        ensures headed { IsHeaded result }
        ensures moves { Moves D.Disk self.old self.new }
    {
        let place = Place {
            volume: last,
            at: self.position.extent.end,
            len: read.group.len,
        };
        self.position.extent.end += read.group.len;
        self.position.captures += 1;
        self.position.stage = Stage::Within;
        Found::Group { place, read }
    }

    /// Goes past the warcinfo with which the next volume begins.
    fn open(&mut self, volume: u32, namespace: Uuid, born: u64, len: u64) -> Found
        requires in_place { IsInPlace D.Disk self.old }
        requires volume { volume ≡ (position_of self.old).extent.volumes }
        requires there { volume < file_count self.old }
        requires whole { IsTrue D.tells → unread (position_of self.old) (files_in D.Disk self.old) ≡ [] }
        requires fits { HasInfoText volume namespace born len }
        requires len { IsTrue D.tells → self.old.window.len ≡ length (file_at (files_in D.Disk self.old) volume) }
        requires next { IsTrue D.tells → BeginsWithInfo volume (file_at (files_in D.Disk self.old) volume) namespace born len }
        ensures finds { Finds D.Disk self.old self.new result }
        ensures headed { IsHeaded result }
        ensures moves { Moves D.Disk self.old self.new }
    {
        self.position.extent.volumes = volume + 1;
        self.position.extent.end = len;
        self.position.namespace = namespace;
        self.position.stage = Stage::Opened;
        self.len = self.window.len();
        Found::Info {
            volume,
            namespace,
            born,
        }
    }

    /// The end, with what stands behind what was read.
    fn end(&mut self, is_dirty: bool, further: Further) -> Found
        requires in_place { IsInPlace D.Disk self.old }
        requires not_skipped { IsTrue D.tells → (position_of self.old).stage ≢ Skips }
        requires behind { IsTrue D.tells → IsBehind is_dirty (unread (position_of self.old) (files_in D.Disk self.old)) }
        requires further { IsTrue D.tells → IsFurthest further (position_of self.old).extent.volumes (files_in D.Disk self.old) }
        ensures finds { Finds D.Disk self.old self.new result }
        ensures headed { IsHeaded result }
        ensures moves { Moves D.Disk self.old self.new }
    {
        self.position.extent.is_dirty = is_dirty;
        self.position.extent.further = further;
        self.position.stage = Stage::Done;
        Found::End
    }
}
