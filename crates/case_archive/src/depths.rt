//! A step that opens an archive by both depths, and tells which of them asks for less.
ghost use Rattle.case_stores.specs.Opening.{IsOpening};

use archive_shelf::Depth;
use capture::Memory;
use case_steps::{Outcome, after};
use case_stores::{Held, Opening, reopened};
use disk_model::MemoryDisk;
use std::alloc::Global;

/// Opens the archive with each volume read whole, and by checkpoints. It tells what both openings tell, and whether the second one
/// makes fewer reads.
pub fn opened_by_both(
    alloc: Global,
    outcome: &mut Outcome,
    disk: MemoryDisk,
    opening: &Opening,
) -> Result<Option<Held<MemoryDisk>>, Memory>
    requires { IsOpening opening.now }
{
    let before = disk.reads();
    let disk = behind_opening(alloc, outcome, disk, opening, Depth::Whole)?;
    let between = disk.reads();
    let disk = behind_opening(alloc, outcome, disk, opening, Depth::Checkpoints)?;
    let whole = between.saturating_sub(before);
    let by_lines = disk.reads().saturating_sub(between);
    let done = outcome.put_answer(alloc, compared(by_lines, whole));
    after(done, Some(Held::Disk(disk)))
}

/// The disk behind an opening of this depth, of which it is told what it tells.
fn behind_opening(
    alloc: Global,
    outcome: &mut Outcome,
    disk: MemoryDisk,
    opening: &Opening,
    depth: Depth,
) -> Result<MemoryDisk, Memory>
    requires { IsOpening opening.now }
{
    let (held, told) = reopened(alloc, disk, opening, depth);
    after(outcome.put_told(alloc, told), held.closed())
}

/// How the second number of reads is told beside the first.
fn compared(by_lines: u64, whole: u64) -> &'static [u8] {
    if by_lines < whole {
        b"fewer reads"
    } else if by_lines == whole {
        b"as many reads"
    } else {
        b"more reads"
    }
}
