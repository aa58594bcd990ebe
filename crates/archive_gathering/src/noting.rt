//! What is noted of a group that was found.
ghost use Rattle.std.specs.Prelude.{◌≡◌, ◌+◌, ◌^◌, ◌<◌, IfOk, IsFalse, IsTrue, Ok};
ghost use Rattle.http_head.specs.Heads.{HoldsResponseParts};
ghost use Rattle.httparse.specs.Grammar as grammar;
ghost use Rattle.warc_scan.specs.Headed.{HasItsParts};
ghost use Rattle.archive_gathering.specs.Noting.{IsNoted, IsPast, IsSomeGroup, IsWithin, noted_by, referring};

use archive_volumes::{RecordAt, entry_of};
use capture::{Digest, Kept, Memory, Stored, wires_have_one_payload};
use index_entry::Entry;
use std::alloc::Global;
use warc_journal::Place;
use warc_scan::{Group, HeadedGroup};

/// One more than the greatest number that a capture may have.
pub(crate) const NUMBER_BOUND: u32 = 4_294_967_294;

/// No request is so long, in bytes.
const REQUEST_BOUND: u64 = 17_179_869_184;

/// No volume's text is so long, in bytes.
pub const TEXT_BOUND: u64 = 4_611_686_018_427_387_904;

/// What is noted of a group.
#[derive(Drop)]
pub(crate) struct Noted {
    /// Its capture.
    pub(crate) stored: Stored,
    /// The digest of its payload.
    pub(crate) digest: Digest,
    /// The volume in which it stands.
    pub(crate) volume: u32,
    /// Where in the volume's text its group begins, in bytes.
    pub(crate) at: u64,
    /// Where in that text the response's head begins, in bytes.
    pub(crate) head_at: u64,
    /// The length of its payload in bytes, where it keeps its whole wire.
    pub(crate) length: u64,
    /// Its entry, where it is found by date.
    pub(crate) entry: Option<Entry>,
}

/// Whether a bound is passed with a group: in the number of captures, the length of a request, or that of a volume's text.
pub(crate) fn passes_bounds(number: u32, place: &Place, group: &Group) -> bool
    ensures within { IsFalse result → IsWithin number place.now group.now }
    ensures past { IsTrue result → IsPast number place.now group.now }
{
    if number >= NUMBER_BOUND {
        return true;
    }
    if group.stored.request.as_slice().len() as u64 >= REQUEST_BOUND {
        return true;
    }
    if place.at >= TEXT_BOUND {
        return true;
    }
    place.len >= TEXT_BOUND - place.at
}

/// What is noted of a group, whose capture refers to this one, if to any.
pub(crate) fn note(
    alloc: Global,
    place: &Place,
    read: HeadedGroup,
    first: Option<u32>,
) -> Result<Noted, Memory>
    requires found { IsSomeGroup read.group }
    requires ends { place.now.at + read.group.len < 2 ^ 62 }
    requires parsed { HasItsParts read }
    ensures { (h : grammar.ResponseHead) → HoldsResponseParts read.group.stored.head h read.head → IfOk result (IsNoted h place.now read.group first) }
{
    wires_have_one_payload();
    let HeadedGroup { group, head, url } = read;
    let digest = group.digest;
    let at = RecordAt {
        number: group.number,
        digest,
        volume: place.volume,
        offset: place.at,
        len: group.first_len,
    };
    let head_at = place.at + group.head_at;
    let length = group.payload_len;
    let stored = refer(group.stored, first);
    let entry = entry_of(alloc, &stored, &url, &head, at);
    noted_of(stored, at, head_at, length, entry)
}

/// What is noted of a capture whose record and head stand there, with its entry, if there was memory for that.
///
/// By value, so that the group's other parts are let go in one place.
fn noted_of(
    stored: Stored,
    at: RecordAt,
    head_at: u64,
    payload_len: u64,
    entry: Result<Option<Entry>, Memory>,
) -> Result<Noted, Memory>
    ensures entered { IfOk result (λ noted. entry ≡ Ok noted.entry) }
    ensures made { IfOk result (λ noted. noted ≡ noted_by stored at head_at payload_len noted.entry) }
{
    let digest = at.digest;
    match entry {
        Ok(entry) => Ok(Noted {
            stored,
            digest,
            volume: at.volume,
            at: at.offset,
            head_at,
            length: payload_len,
            entry,
        }),
        Err(Memory) => Err(Memory),
    }
}

/// The capture, which refers to this one, if to any.
fn refer(stored: Stored, first: Option<u32>) -> Stored
    ensures { result ≡ referring stored first }
{
    let Some(first) = first else {
        return stored;
    };
    let Stored {
        method,
        uri,
        date,
        request,
        head,
        kept: _,
    } = stored;
    Stored {
        method,
        uri,
        date,
        request,
        head,
        kept: Kept::Same(first),
    }
}
