//! The line that the strings of a JSON object show.
ghost use Rattle.std.specs.Prelude.{◌≡◌, ◌≤◌, ◌<◌, ℕ, List, IsAscii, Some, IfOk, IfSome, IsSomeAnd};
ghost use Rattle.time_text.specs.Texts.{InRange};
ghost use Rattle.cdxj_line.specs.Lines.{IsLine, IsWritable};
ghost use Rattle.cdxj_line.specs.steps.Shown.{Shows, IsPartOf, TellNumbers};
ghost use Rattle.cdxj_line.specs.declared.line.Line.{Line};

use crate::Line;
use crate::file_name::volume_of;
use crate::json_string::read_escaped;
use crate::members::Members;
use crate::number::{digest_of, number_of, small_number_of, status_of};
use capture::Memory;
use std::alloc::Global;
use surt_key::{KeyFault, key_of};

/// The numbers of a line, but for its date.
#[derive(Clone, Copy)]
struct Numbers {
    volume: u32,
    length: u64,
    number: u32,
    offset: u64,
    status: u16,
}

/// The line of a date and the strings of its object, where they are those of a line.
pub(crate) fn line_of_members(
    alloc: Global,
    date: u64,
    members: &Members<'_>,
) -> Result<Option<Line>, Memory>
    requires { InRange date }
    ensures writable { IfOk result (λ read. IfSome read IsWritable) }
    ensures dated { IfOk result (λ read. IfSome read (λ line. line.date ≡ date)) }
    ensures some { IfOk result (λ read. IfSome read (λ line. Shows line members.now)) }
    ensures reads_back { (line : Line) → IsLine line → date ≡ line.date → Shows line members.now
        → IfOk result (λ read. read ≡ Some line) }
{
    let Some(numbers) = numbers_of(members) else {
        return Ok(None);
    };
    let Some(digest) = digest_of(members.digest) else {
        return Ok(None);
    };
    let Some(method) = read_escaped(alloc, members.method)? else {
        return Ok(None);
    };
    let Some(mime) = read_escaped(alloc, members.mime)? else {
        return Ok(None);
    };
    let Some(url) = read_escaped(alloc, members.url)? else {
        return Ok(None);
    };
    let key = match key_of(alloc, url.as_slice()) {
        Ok(key) => key,
        Err(KeyFault::NotHttp) => return Ok(None),
        Err(KeyFault::Memory) => return Err(Memory),
    };
    Ok(Some(Line {
        key,
        date,
        digest,
        volume: numbers.volume,
        length: numbers.length,
        method,
        mime,
        number: numbers.number,
        offset: numbers.offset,
        status: numbers.status,
        url,
    }))
}

/// The numbers, where the status is of three digits.
fn numbers_of(members: &Members<'_>) -> Option<Numbers>
    ensures status_from { IfSome result (λ numbers. 100 ≤ numbers.status) }
    ensures status_to { IfSome result (λ numbers. numbers.status ≤ 999) }
    ensures some { IfSome result (TellNumbers members.now) }
    ensures found { (line : Line) → IsLine line → Shows line members.now
        → IsSomeAnd result (IsPartOf line) }
{
    Some(Numbers {
        volume: volume_of(members.filename)?,
        length: number_of(members.length)?,
        number: small_number_of(members.number)?,
        offset: number_of(members.offset)?,
        status: status_of(members.status)?,
    })
}
