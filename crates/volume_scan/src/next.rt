//! What stands next in a volume, as far as the scanner tells of the bytes that were read.
ghost use Rattle.std.specs.Prelude.{◌≡◌, ◌≤◌, ℕ, List, length, min, take, IfErr, IfOk};
ghost use Rattle.volume_scan.specs.steps.Next.{Asks, FitsGroup, FitsInfo, IsNextGroup, IsNextInfo};

use record_opening::{InfoStep, NoRecord, next_info};
use std::alloc::Global;
use uuid::Uuid;
use warc_scan::{HeadedGroup, next_headed_group};

/// What stands behind the text that was read of a volume.
#[derive(Drop)]
pub enum NextGroup {
    /// This group.
    Group(HeadedGroup),
    /// Nothing.
    Nothing,
    /// A tail, as a stop leaves it.
    Tail,
    /// The commit byte and more, but not the group that is due.
    Damaged,
}

/// What a file holds.
#[derive(Drop)]
pub enum NextInfo {
    /// A warcinfo, with what it says and its length.
    Info {
        namespace: Uuid,
        born: u64,
        len: u64,
    },
    /// Nothing.
    Nothing,
    /// A tail, as a stop leaves it.
    Tail,
    /// The commit byte and more, but not the warcinfo that is due.
    Damaged,
}

/// Why nothing can be said yet.
#[derive(Clone, Copy)]
pub enum Unsaid {
    /// So many bytes are needed, more than were read and no more than there are.
    Need(u64),
    /// There was no memory.
    Memory,
}

/// What stands in a file from a place on, of which these bytes were read and which has so many. Two of them are enough to
/// know a tail.
pub fn judge_group(
    alloc: Global,
    bytes: &[u8],
    room: u64,
    namespace: &Uuid,
    number: u32,
) -> Result<NextGroup, Unsaid>
    requires within { length bytes.now ≤ room }
    requires two { min 2 room ≤ length bytes.now }
    ensures next { (rest : List ℕ) → length rest ≡ room → bytes.now ≡ take (length bytes.now) rest
        → IfOk result (IsNextGroup namespace.now number rest) }
    ensures fits { IfOk result (FitsGroup namespace.now number room) }
    ensures unsaid { IfErr result (Asks (length bytes.now) room) }
{
    let more = (bytes.len() as u64) < room;
    match next_headed_group(alloc, bytes, more, namespace, number) {
        Ok(read) => Ok(NextGroup::Group(read)),
        Err(NoRecord::End) => Ok(NextGroup::Nothing),
        Err(NoRecord::Unfinished) => Ok(NextGroup::Tail),
        Err(NoRecord::Damaged) => Ok(NextGroup::Damaged),
        Err(NoRecord::Need(n)) => {
            if n <= room {
                Err(Unsaid::Need(n))
            } else {
                // No group with this number is so short.
                Ok(NextGroup::Damaged)
            }
        }
        Err(NoRecord::Memory) => Err(Unsaid::Memory),
    }
}

/// What a file holds, of which these bytes were read and which has so many. Two of them are enough to know a tail.
pub fn judge_info(alloc: Global, bytes: &[u8], room: u64, volume: u32) -> Result<NextInfo, Unsaid>
    requires within { length bytes.now ≤ room }
    requires two { min 2 room ≤ length bytes.now }
    ensures next { (rest : List ℕ) → length rest ≡ room → bytes.now ≡ take (length bytes.now) rest
        → IfOk result (IsNextInfo volume rest) }
    ensures fits { IfOk result (FitsInfo volume) }
    ensures unsaid { IfErr result (Asks (length bytes.now) room) }
{
    let more = (bytes.len() as u64) < room;
    match next_info(alloc, bytes, more, volume) {
        InfoStep::Info {
            namespace,
            born,
            len,
        } => Ok(NextInfo::Info {
            namespace,
            born,
            len,
        }),
        InfoStep::End => Ok(NextInfo::Nothing),
        InfoStep::Unfinished => Ok(NextInfo::Tail),
        InfoStep::Damaged => Ok(NextInfo::Damaged),
        InfoStep::Need(n) => {
            if n <= room {
                Err(Unsaid::Need(n))
            } else {
                // No warcinfo of this volume is so short.
                Ok(NextInfo::Damaged)
            }
        }
        InfoStep::Memory => Err(Unsaid::Memory),
    }
}
