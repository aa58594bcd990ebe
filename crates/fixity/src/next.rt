//! What stands next in a volume, as far as the bytes tell that were read.
ghost use Rattle.std.specs.Prelude.{◌≡◌, ◌≤◌, ℕ, List, IfOk, length, take};
ghost use Rattle.fixity.specs.steps.Nexts.{Fits, IsNextGroup};

use capture::Memory;
use record_opening::NoRecord;
use std::alloc::Global;
use uuid::Uuid;
use warc_scan::next_outline;

/// What stands where a group is due.
#[derive(Clone, Copy)]
pub enum Next {
    /// The group, of so many bytes.
    Stands(u64),
    /// Something else, or nothing.
    Missing,
    /// What was read doesn't tell. A group that stands there has so many bytes at least, more than were read and no more than
    /// there are.
    Need(u64),
}

/// What stands where the group with this number is due. `bytes` were read from there on, and `room` is how many there are.
pub fn next_of(
    alloc: Global,
    bytes: &[u8],
    room: u64,
    namespace: &Uuid,
    number: u32,
) -> Result<Next, Memory>
    requires { length bytes.now ≤ room }
    ensures next { (rest : List ℕ) → length rest ≡ room → bytes.now ≡ take (length bytes.now) rest
        → IfOk result (IsNextGroup namespace.now number rest) }
    ensures fits { IfOk result (Fits (length bytes.now) room) }
{
    let more = (bytes.len() as u64) < room;
    match next_outline(alloc, bytes, more, namespace, number) {
        Ok(outline) => Ok(Next::Stands(outline.len)),
        Err(NoRecord::End) => Ok(Next::Missing),
        Err(NoRecord::Unfinished) => Ok(Next::Missing),
        Err(NoRecord::Damaged) => Ok(Next::Missing),
        Err(NoRecord::Need(n)) => {
            if n <= room {
                Ok(Next::Need(n))
            } else {
                // No group with this number is so short.
                Ok(Next::Missing)
            }
        }
        Err(NoRecord::Memory) => Err(Memory),
    }
}
