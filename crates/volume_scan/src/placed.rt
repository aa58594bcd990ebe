//! A group that is read by its place.
ghost use Rattle.std.specs.Prelude.{◌≡◌, ◌+◌, ◌≤◌, ◌<◌, ℕ, IfErr, IfOk, IsTrue, length};
ghost use Rattle.warc_journal.specs.Extents.{warc_files};
ghost use Rattle.warc_journal.specs.Journals.{IsInStep, Rests, disk_of, extent_of};
ghost use Rattle.warc_scan.specs.Answers.{BeginsWithGroup};
ghost use Rattle.volume_scan.specs.Placed.{HasGroupText, IsMissingAt, NamesPlace, bytes_at};
ghost use Rattle.volume_scan.specs.Scannings.{CountsDisk};
ghost use Rattle.volume_scan.specs.Unread.{file_at};

use crate::ScanFault;
use crate::next::{NextGroup, Unsaid, judge_group};
use disk_model::Disk;
use std::alloc::Global;
use uuid::Uuid;
use warc_journal::{Journal, Place};
use warc_scan::{Group, HeadedGroup};

/// The group with this number that stands at a place of a volume's file. No more is read than the place has, which may be
/// more than the group. `Damaged`, with the place: no such group stands there.
pub fn group_at<D: Disk>(
    alloc: Global,
    journal: &mut Journal<D>,
    place: Place,
    namespace: &Uuid,
    number: u32,
) -> Result<Group, ScanFault>
    requires there { IsTrue D.tells → place.volume < length (warc_files (D.reading (disk_of journal.old))) }
    requires within { IsTrue D.tells → place.at + place.len ≤ length (file_at (warc_files (D.reading (disk_of journal.old))) place.volume) }
    ensures group { IfOk result (HasGroupText namespace.now number place.len) }
    ensures stands { IsTrue D.tells → IfOk result (BeginsWithGroup namespace.now number (bytes_at place (warc_files (D.reading (disk_of journal.old))))) }
    ensures missing { IsTrue D.tells → IfErr result (IsMissingAt namespace.now number (bytes_at place (warc_files (D.reading (disk_of journal.old))))) }
    ensures named { IfErr result (NamesPlace place) }
    ensures rests { IsTrue D.tells → Rests D.Disk (disk_of journal.old) (disk_of journal.new) }
    ensures extent { extent_of journal.new ≡ extent_of journal.old }
    ensures in_step { IsTrue D.tells → IsInStep D.Disk journal.old → IsInStep D.Disk journal.new }
    ensures faults { CountsDisk (D.faults (disk_of journal.old)) (D.faults (disk_of journal.new)) result }
{
    let mut bytes = vec![in alloc; 0u8; place.len as usize]?;
    journal.read(place.volume, place.at, bytes.as_mut_slice())?;
    group_in(alloc, bytes.as_slice(), place, namespace, number)
}

/// The group with this number with which all the bytes of a place begin.
fn group_in(
    alloc: Global,
    bytes: &[u8],
    place: Place,
    namespace: &Uuid,
    number: u32,
) -> Result<Group, ScanFault>
    requires { length bytes.now ≡ place.len }
    ensures group { IfOk result (HasGroupText namespace.now number place.len) }
    ensures stands { IfOk result (BeginsWithGroup namespace.now number bytes.now) }
    ensures missing { IfErr result (IsMissingAt namespace.now number bytes.now) }
    ensures named { IfErr result (NamesPlace place) }
    ensures still { (count : ℕ) → CountsDisk count count result }
{
    let damaged = ScanFault::Damaged {
        file: place.volume,
        place: place.at,
    };
    match judge_group(alloc, bytes, place.len, namespace, number) {
        Ok(NextGroup::Group(read)) => {
            let HeadedGroup {
                group,
                head: _,
                url: _,
            } = read;
            Ok(group)
        }
        Ok(NextGroup::Nothing) => Err(damaged),
        Ok(NextGroup::Tail) => Err(damaged),
        Ok(NextGroup::Damaged) => Err(damaged),
        // All the bytes are there.
        Err(Unsaid::Need(_)) => unreachable!(),
        Err(Unsaid::Memory) => Err(ScanFault::Memory),
    }
}
