//! A line that is read.
ghost use Rattle.std.specs.Prelude.{◌≡◌, ◌≢◌, ℕ, Some, IfOk, IfSome, IfNone, IsSomeAnd};
ghost use Rattle.time_text.specs.Texts.{InRange, time_digits};
ghost use Rattle.cdxj_line.specs.Lines as spec;
ghost use Rattle.cdxj_line.specs.Lines.{IsLine, IsWritable};
ghost use Rattle.cdxj_line.specs.steps.Shown.{IsTextOf, ShowsLine};
ghost use Rattle.cdxj_line.specs.declared.line.Line.{Line};

use crate::Line;
use crate::cut::{before, cut_at_blank};
use crate::members::{Members, members_of};
use crate::shown::line_of_members;
use capture::Memory;
use std::alloc::Global;
use time_text::{read_time, write_time};

/// The line that has this text, and `None` exactly where no line has it.
pub fn read_line(alloc: Global, text: &[u8]) -> Result<Option<Line>, Memory>
    ensures some { IfOk result (λ read. IfSome read (λ line. IsWritable line × (text.now ≡ spec.line_text line))) }
    ensures none { IfOk result (λ read. IfNone read ((line : Line) → IsLine line → text.now ≢ spec.line_text line)) }
    ensures reads_back { (line : Line) → IsLine line → text.now ≡ spec.line_text line
        → IfOk result (λ read. read ≡ Some line) }
{
    let Some(parts) = parts_of(text) else {
        return Ok(None);
    };
    let Some(line) = line_of_members(alloc, parts.date, &parts.members)? else {
        return Ok(None);
    };
    if line.key.as_slice() != parts.key {
        return Ok(None);
    }
    Ok(Some(line))
}

/// The parts of a line as they stand in its text.
#[derive(Clone, Copy)]
struct Parts<'a> {
    key: &'a [u8],
    date: u64,
    members: Members<'a>,
}

/// The parts of a text that has those of a line.
fn parts_of(text: &[u8]) -> Option<Parts<'_>>
    ensures dated { IfSome result (λ parts. InRange parts.date) }
    ensures some { IfSome result (λ parts. IsTextOf parts text.now) }
    ensures found { (line : Line) → IsLine line → text.now ≡ spec.line_text line → IsSomeAnd result (ShowsLine line) }
{
    let (key, rest) = cut_at_blank(text)?;
    let (digits, rest) = cut_at_blank(rest)?;
    let date = date_of(digits)?;
    let object = before(rest, b"\n")?;
    let members = members_of(object)?;
    Some(Parts { key, date, members })
}

/// The date that is written so.
fn date_of(digits: &[u8]) -> Option<u64>
    ensures some { IfSome result (λ date. InRange date × (digits.now ≡ time_digits date)) }
    ensures found { (date : ℕ) → InRange date → digits.now ≡ time_digits date → result ≡ Some date }
{
    let Ok(date) = read_time(digits) else {
        return None;
    };
    // The front of a date and milliseconds of zeros are read too.
    let Ok(written) = write_time(date) else {
        return None;
    };
    if written.as_slice() == digits {
        Some(date)
    } else {
        None
    }
}
