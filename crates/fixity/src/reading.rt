//! Reads bytes of a volume.
ghost use Rattle.std.specs.Prelude.{◌≡◌, ◌-◌, ◌≤◌, IfOk, IsTrue, OnOk, drop, length, min, take};
ghost use Rattle.fixity.specs.Faults.{CountsDisk};
ghost use Rattle.fixity.specs.steps.Files.{IsIn, file_in};

use crate::FixityFault;
use crate::due::Due;
use disk_model::{Disk, Kind};
use std::alloc::Global;

/// So many bytes of a volume from a place on, or as many as stand there.
pub fn read_bytes<D: Disk>(
    alloc: Global,
    disk: &mut D,
    due: Due,
    place: u64,
    most: u64,
) -> Result<Vec<u8>, FixityFault>
    requires place { place ≤ due.len }
    requires there { IsTrue D.tells → IsIn (D.reading disk.old) due }
    ensures bytes { IsTrue D.tells → IfOk result (λ bytes. bytes.items
        ≡ take (length bytes.items) (drop place (file_in (D.reading disk.old) due))) }
    ensures len { IfOk result (λ bytes. length bytes.items ≡ min most (due.len - place)) }
    ensures reading { IsTrue D.tells → D.reading disk.new ≡ D.reading disk.old }
    ensures faults { CountsDisk (D.faults disk.old) (D.faults disk.new) result }
{
    let mut bytes = Vec::new(alloc);
    read_into(disk, due, place, most, &mut bytes)?;
    Ok(bytes)
}

/// The same bytes, in the place of those that were read before: memory is taken only where these were fewer.
pub fn read_into<D: Disk>(
    disk: &mut D,
    due: Due,
    place: u64,
    most: u64,
    bytes: &mut Vec<u8>,
) -> Result<(), FixityFault>
    requires place { place ≤ due.len }
    requires there { IsTrue D.tells → IsIn (D.reading disk.old) due }
    ensures bytes { IsTrue D.tells → OnOk result (bytes.new.items
        ≡ take (length bytes.new.items) (drop place (file_in (D.reading disk.old) due))) }
    ensures len { OnOk result (length bytes.new.items ≡ min most (due.len - place)) }
    ensures reading { IsTrue D.tells → D.reading disk.new ≡ D.reading disk.old }
    ensures faults { CountsDisk (D.faults disk.old) (D.faults disk.new) result }
{
    let len = most.min(due.len - place) as usize;
    bytes.reserve_exact(len.saturating_sub(bytes.len()))?;
    bytes.resize(len, 0u8)?;
    match disk.read(Kind::Warc, due.volume, place, bytes.as_mut_slice()) {
        Ok(()) => Ok(()),
        Err(_) => Err(FixityFault::DiskFault),
    }
}
