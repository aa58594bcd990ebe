//! Checks the bytes of a volume.
ghost use Rattle.std.specs.Prelude.{◌≡◌, ◌+◌, ◌<◌, ◌≤◌, ◌^◌, IfOk, IsTrue};
ghost use Rattle.disk_model.specs.Image.{file_count, file_of};
ghost use Rattle.fixity.specs.Faults.{CountsDisk};
ghost use Rattle.fixity.specs.Verdicts.{IsVerdict, volume_of};

use crate::due::Due;
use crate::groups::find_groups;
use crate::info::read_info;
use crate::reading::read_bytes;
use crate::remainder::{FIRST_BYTES, is_sound_rest};
use crate::{FixityFault, Verdict};
use disk_model::{Disk, Kind};
use std::alloc::Global;
use std::thread::Threads;
use uuid::Uuid;

/// Whether a volume holds what is due in it: the warcinfo of its number in this namespace, and the groups of `count` captures
/// from the number `first` on. What a revisit refers to isn't looked up. At most so many workers, 1 to 16, read the groups of a batch,
/// of whom this thread is one, which reads the next batch ahead before. Of the volume no more than 128 MiB are in memory at once, or
/// one group and an eighth more.
pub fn check_volume<R: Threads + Sync, D: Disk>(
    rt: &R,
    alloc: Global,
    disk: &mut D,
    volume: u32,
    namespace: &Uuid,
    first: u32,
    count: u32,
    last: bool,
    workers: u32,
) -> Result<Verdict, FixityFault>
    requires there { IsTrue D.tells → volume < file_count (D.reading disk.old) Kind.Warc }
    requires numbers { first + count < 2 ^ 32 }
    requires workers { (0 < workers) × (workers ≤ 16) }
    ensures verdict { IsTrue D.tells → IfOk result (IsVerdict (volume_of volume namespace.now first count last)
        (file_of (D.reading disk.old) Kind.Warc volume)) }
    ensures reading { IsTrue D.tells → D.reading disk.new ≡ D.reading disk.old }
    ensures faults { CountsDisk (D.faults disk.old) (D.faults disk.new) result }
{
    let len = disk.len(Kind::Warc, volume)?;
    let due = Due {
        volume,
        len,
        first,
        count,
        last,
    };
    let Some(start) = read_info(alloc, disk, due, namespace)? else {
        return Ok(Verdict::Damaged { place: 0 });
    };
    let found = find_groups(rt, alloc, disk, due, namespace, start, workers)?;
    if found.groups < count {
        return Ok(Verdict::Damaged { place: found.place });
    }
    let front = read_bytes(alloc, disk, due, found.place, FIRST_BYTES)?;
    if is_sound_rest(front.as_slice(), last) {
        Ok(Verdict::Sound { bytes: found.place })
    } else {
        Ok(Verdict::Damaged { place: found.place })
    }
}
