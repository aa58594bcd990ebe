//! Tells of the group of a capture in a volume without copying the bodies of its messages.
ghost use Rattle.std.specs.Prelude.{◌≡◌, IfErr, IfOk};
ghost use Rattle.warc_scan.specs.Asking.{AsksForMore};
ghost use Rattle.warc_scan.specs.steps.Founds.{HasMessages, IsFound, MakesOutline};
ghost use Rattle.warc_scan.specs.Outlines.{BeginsWithOutline};
ghost use Rattle.warc_scan.specs.Answers.{TellsNoGroup};

use crate::Outline;
use crate::answer::Answer;
use crate::copy::{copy_revisited, copy_target};
use crate::find::{Found, RECORD_END, Read, read_first};
use capture::{Memory, Text};
use record_opening::NoRecord;
use std::alloc::Global;
use uuid::Uuid;

/// What stands where a group with this number may begin, as `next_group` tells it, without the bodies of its messages: these
/// are read, and no byte of them is copied but of a chunked one.
pub fn next_outline(
    alloc: Global,
    bytes: &[u8],
    more: bool,
    namespace: &Uuid,
    number: u32,
) -> Result<Outline, NoRecord>
    ensures ok { IfOk result (BeginsWithOutline namespace.now number bytes.now) }
    ensures none { IfErr result (TellsNoGroup namespace.now number more bytes.now) }
    ensures asks { IfErr result (AsksForMore namespace.now number bytes.now) }
{
    // A `?` on a result that holds an id isn't covered.
    let read = match read_first(alloc, bytes, more, namespace, number) {
        Ok(read) => read,
        Err(why) => return Err(why),
    };
    let Read {
        found,
        method,
        answer,
    } = read;
    Ok(outline_of(alloc, number, &found, method, answer)?)
}

/// What is told of the group of these parts, with these messages.
fn outline_of(
    alloc: Global,
    number: u32,
    found: &Found<'_>,
    method: Text,
    answer: Answer<'_>,
) -> Result<Outline, Memory>
    requires found { IsFound found.now }
    requires messages { HasMessages found.now method answer }
    ensures { IfOk result (MakesOutline number found.now) }
{
    let head_at = found.first_len - RECORD_END - found.answer.len() as u64;
    let uri = copy_target(alloc, found.opening.uri)?;
    let same = copy_revisited(alloc, &found.opening.same)?;
    Ok(Outline {
        number,
        method,
        uri,
        date: found.opening.date,
        head: answer.parsed,
        cut: found.opening.cut,
        digest: found.opening.digest,
        payload_len: answer.payload_len,
        same,
        request_len: found.request.len() as u64,
        head_at,
        body_at: head_at + answer.head.len() as u64,
        wire_len: answer.wire.len() as u64,
        first_len: found.first_len,
        len: found.len,
    })
}
