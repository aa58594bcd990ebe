//! Reads the opening of a capture's first record, without its block.
ghost use Rattle.std.specs.Prelude.{◌≡◌, ◌++◌, ℕ, List, IfErr, IfOk};
ghost use Rattle.record_opening.specs.FirstOpenings.{AsksForOpening, BeginsWithOpening, TellsNoOpening};
ghost use Rattle.warc_scan.specs.Outlines.{IsOpeningOf};
ghost use Rattle.warc_scan.specs.Answers.{BeginsWithGroup};
ghost use Rattle.warc_scan.specs.declared.group.Group.{Group as GroupForm};

use record_opening::{FirstOpening, Front, NoRecord, front_of, read_first_opening};
use std::alloc::Global;
use uuid::Uuid;

/// What the opening of the first record says where a group with this number may begin, whatever its block is. `bytes` begin
/// there, and `more` says that the file goes on behind them. Of a group that stands there it says what `next_group` tells.
pub fn next_opening<'b>(
    alloc: Global,
    bytes: &'b [u8],
    more: bool,
    namespace: &Uuid,
    number: u32,
) -> Result<FirstOpening<'b>, NoRecord>
    ensures ok { IfOk result (BeginsWithOpening namespace.now number bytes.now) }
    ensures group { (after : List ℕ) (group : GroupForm) → BeginsWithGroup namespace.now number (bytes.now ++ after) group → IfOk result (IsOpeningOf group) }
    ensures none { IfErr result (TellsNoOpening namespace.now number more bytes.now) }
    ensures asks { IfErr result (AsksForOpening namespace.now number bytes.now) }
{
    match front_of(bytes, more) {
        Front::Nothing => Err(NoRecord::End),
        Front::Tail => Err(NoRecord::Unfinished),
        Front::Begun => Err(NoRecord::Need(bytes.len() as u64 + 1)),
        Front::Committed => match read_first_opening(alloc, bytes, namespace, number) {
            Ok(first) => Ok(first),
            Err(stop) => Err(NoRecord::by(stop, more, bytes.len() as u64)),
        },
    }
}
