//! Finds the group of a capture in a volume.
ghost use Rattle.std.specs.Prelude.{◌≡◌, IfErr, IfOk};
ghost use Rattle.warc_scan.specs.Asking.{AsksForGroup, AsksForMore};
ghost use Rattle.warc_scan.specs.steps.Founds.{AreCopies, HasMessages, IsFound, IsGroupIn, no_group_by};
ghost use Rattle.warc_scan.specs.Answers.{BeginsWithGroup, TellsGroup, TellsNoGroup};
ghost use Rattle.warc_scan.specs.Headed.{HasItsParts};

use crate::copy::{Copies, copy_parts};
use crate::find::{RECORD_END, Read, read_first};
use crate::{Group, GroupStep, HeadedGroup};
use capture::Stored;
use record_opening::NoRecord;
use std::alloc::Global;
use uuid::Uuid;

/// What stands where a group with this number may begin. `bytes` begin there, and `more` says that the file goes on behind
/// them. A group is what `warc_text` writes for a well formed capture: a response has the digest of its payload; a revisit
/// may have any digest and refer to any record, which is for the caller to check.
pub fn next_group(
    alloc: Global,
    bytes: &[u8],
    more: bool,
    namespace: &Uuid,
    number: u32,
) -> GroupStep
    ensures tells { TellsGroup namespace.now number more bytes.now result }
    ensures asks { AsksForGroup namespace.now number bytes.now result }
{
    match next_headed_group(alloc, bytes, more, namespace, number) {
        Ok(read) => {
            let HeadedGroup {
                group,
                head: _,
                url: _,
            } = read;
            GroupStep::Group(group)
        }
        Err(why) => no_group(why),
    }
}

/// The same, with the parts of the response's head and the URL that the target is parsed to, or why there is no group.
pub fn next_headed_group(
    alloc: Global,
    bytes: &[u8],
    more: bool,
    namespace: &Uuid,
    number: u32,
) -> Result<HeadedGroup, NoRecord>
    ensures ok { IfOk result (λ read. BeginsWithGroup namespace.now number bytes.now read.group) }
    ensures parts { IfOk result HasItsParts }
    ensures none { IfErr result (TellsNoGroup namespace.now number more bytes.now) }
    ensures asks { IfErr result (AsksForMore namespace.now number bytes.now) }
{
    // A `?` on a result that holds an id isn't covered.
    let read = match read_first(alloc, bytes, more, namespace, number) {
        Ok(read) => read,
        Err(why) => return Err(why),
    };
    let copies = copy_parts(alloc, &read.found, &read.answer)?;
    Ok(group_of(number, read, copies))
}

/// The step that tells no group.
fn no_group(why: NoRecord) -> GroupStep
    ensures { result ≡ no_group_by why }
{
    match why {
        NoRecord::End => GroupStep::End,
        NoRecord::Unfinished => GroupStep::Unfinished,
        NoRecord::Damaged => GroupStep::Damaged,
        NoRecord::Need(n) => GroupStep::Need(n),
        NoRecord::Memory => GroupStep::Memory,
    }
}

/// The group that was read, with these copies of its parts.
fn group_of(number: u32, read: Read<'_>, copies: Copies) -> HeadedGroup
    requires found { IsFound read.found }
    requires messages { HasMessages read.found read.method read.answer }
    requires copies { AreCopies read.found read.answer copies }
    ensures group { IsGroupIn number read.entry.found result.group }
    ensures parts { HasItsParts result }
{
    let Read {
        found,
        method,
        answer,
    } = read;
    let Copies {
        uri,
        request,
        head,
        same,
        kept,
    } = copies;
    let head_at = found.first_len - RECORD_END - found.answer.len() as u64;
    let body_at = head_at + answer.head.len() as u64;
    let opening = found.opening;
    let group = Group {
        number,
        stored: Stored {
            method,
            uri,
            date: opening.date,
            request,
            head,
            kept,
        },
        digest: opening.digest,
        payload_len: answer.payload_len,
        same,
        head_at,
        body_at,
        first_len: found.first_len,
        len: found.len,
    };
    HeadedGroup {
        group,
        head: answer.parsed,
        url: opening.url,
    }
}
