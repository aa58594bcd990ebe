//! The check of a volume's bytes, as a step of a case.
use crate::call::Due;
use crate::group::namespace_in;
use crate::told::Told;
use capture::Memory;
use case_steps::look;
use disk_model::{Kind, MemoryDisk};
use fixity::{FixityFault, Verdict, check_volume};
use std::alloc::Global;
use std::thread::Threads;

/// What a volume is found to be in which this is due. `Nothing` where no namespace is given, more captures than numbers, or
/// other than 1 to 16 workers.
pub fn verify<R: Threads + Sync>(
    rt: &R,
    alloc: Global,
    disk: &mut MemoryDisk,
    due: Due,
) -> Result<Told, Memory> {
    let Some(namespace) = namespace_in(due.namespace) else {
        return Ok(Told::Nothing);
    };
    if due.first.checked_add(due.count).is_none() || due.workers == 0 || due.workers > 16 {
        return Ok(Told::Nothing);
    }
    if let Err(absent) = look(disk, Kind::Warc, due.volume, 0) {
        return Ok(Told::Absent(absent));
    }
    let verdict = check_volume(
        rt,
        alloc,
        disk,
        due.volume,
        &namespace,
        due.first,
        due.count,
        due.last,
        due.workers,
    );
    match verdict {
        Ok(Verdict::Sound { bytes }) => Ok(Told::Sound(bytes)),
        Ok(Verdict::Damaged { place }) => Ok(Told::Damaged(place)),
        Err(FixityFault::DiskFault) => Ok(Told::DiskFault),
        Err(FixityFault::Memory) => Err(Memory),
    }
}
