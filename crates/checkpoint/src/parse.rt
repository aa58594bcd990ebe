//! The lines that stand in a checkpoint's text.
ghost use Rattle.std.specs.Prelude.{◌≡◌, ◌≢◌, ◌↔◌, ◌++◌, ℕ, List, IfOk, IfSome, IfNone, IsTrue, MatchOption};
ghost use Rattle.cdxj_line.specs.Lines.{HasTypes};
ghost use Rattle.checkpoint.specs.Checkpoints.{AreLinesFor, IsCheckpoint, first_line};
ghost use Rattle.checkpoint.specs.Reading.{IsNoCheckpoint};
ghost use Rattle.checkpoint.specs.steps.Lines.{CanFollow, IsNextLine, is_behind};

use crate::lines::FIRST_LINE;
use crate::order::comes_before;
use crate::typed::is_typed;
use capture::Memory;
use cdxj_line::{Line, read_line};
use memchr::memchr;
use std::alloc::Global;

/// The lines of the checkpoint of a volume that has these bytes.
pub(crate) fn lines_of(
    alloc: Global,
    volume: u32,
    bytes: &[u8],
) -> Result<Option<Vec<Line>>, Memory>
    ensures whole { IfOk result (λ read. MatchOption read (IsNoCheckpoint volume bytes.now) (λ lines. IsCheckpoint volume lines.items bytes.now)) }
    ensures fit { IfOk result (λ read. IfSome read (λ lines. AreLinesFor volume lines.items)) }
{
    let Some(mut rest) = behind_first_line(bytes) else {
        return Ok(None);
    };
    let mut lines = Vec::new(alloc);
    while !rest.is_empty() {
        let Some((line, behind)) = next_line(alloc, volume, lines.as_slice(), rest)? else {
            return Ok(None);
        };
        lines.push(line)?;
        rest = behind;
    }
    if lines.is_empty() {
        return Ok(None);
    }
    Ok(Some(lines))
}

/// What stands behind the first line of a checkpoint.
fn behind_first_line(bytes: &[u8]) -> Option<&[u8]>
    ensures some { IfSome result (λ rest. bytes.now ≡ first_line ++ rest.now) }
    ensures none { IfNone result ((rest : List ℕ) → bytes.now ≢ first_line ++ rest) }
{
    if bytes.len() < FIRST_LINE.len() {
        return None;
    }
    let (front, rest) = bytes.split_at(FIRST_LINE.len());
    if front == FIRST_LINE {
        Some(rest)
    } else {
        None
    }
}

/// The line at the front of a text, where it can follow on those before, and what stands behind it.
fn next_line<'b>(
    alloc: Global,
    volume: u32,
    before: &[Line],
    rest: &'b [u8],
) -> Result<Option<(Line, &'b [u8])>, Memory>
    ensures { IfOk result (λ read. IsNextLine volume before.now rest.now read) }
{
    let Some(at) = memchr(b'\n', rest) else {
        return Ok(None);
    };
    let (text, behind) = rest.split_at(at + 1);
    let Some(line) = read_line(alloc, text)? else {
        return Ok(None);
    };
    if can_follow(volume, before, &line) {
        Ok(Some((line, behind)))
    } else {
        Ok(None)
    }
}

/// Whether a line is of the volume and stands behind those before in their order.
fn can_follow(volume: u32, before: &[Line], line: &Line) -> bool
    ensures value { IsTrue result ↔ CanFollow volume before.now line.now }
    ensures typed { HasTypes line.now }
{
    is_typed(line);
    line.volume == volume && is_behind_last(before, line)
}

/// Whether a line stands behind the last of those before.
fn is_behind_last(before: &[Line], line: &Line) -> bool
    ensures { result ≡ is_behind before.now line.now }
{
    match before.last() {
        Some(last) => comes_before(last, line),
        None => true,
    }
}
