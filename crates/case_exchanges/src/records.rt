//! Calls of `record_opening`, `warc_scan` and `warc_text`.
use crate::exchanges::{forwarded_for, payload_of_response};
use capture::{Bytes, Kept, Memory, Taken, Text, put_all, put_number};
use case_language::{TextWords, number_in};
use case_messages::received;
use case_texts::{always, number, put_next, put_next_number, told};
use digest32::{base32_of, payload_digest};
use http_head::Received;
use record_opening::{InfoStep, next_info};
use std::alloc::Global;
use time_text::LATEST;
use uuid::Uuid;
use warc_scan::{Group, GroupStep, Revisited, next_group};
use warc_text::{SameOf, group_text, info_text};
use whole_request::read_request;

/// The namespace of the records.
pub const NAMESPACE: &str = "6ba7b810-9dad-11d1-80b4-00c04fd430c8";

/// The capture that a revisit refers to: its target, and its date, 2024-01-31T12:00:00Z in milliseconds since 1970.
const SAME_URI: &str = "http://a.test/x";

const SAME_DATE: u64 = 1_706_702_400_000;

/// The length of a text, and its SHA-1 in base32.
fn length_and_digest(alloc: Global, text: &[u8]) -> Result<Vec<u8>, Memory> {
    let mut out = number(alloc, text.len() as u64)?;
    put_next(&mut out, &base32_of(&payload_digest(text)))?;
    Ok(out)
}

/// The length and the digest of the warcinfo of a volume, which the text names by its number and its birth in
/// milliseconds.
pub fn info_of(alloc: Global, text: &[u8]) -> Result<Option<Vec<u8>>, Memory> {
    let mut words = TextWords::of(text);
    let (Some(volume), Some(born)) = (words.small_number(), number_in(words.rest)) else {
        return Ok(None);
    };
    let Ok(namespace) = Uuid::parse_str(NAMESPACE) else {
        return Ok(None);
    };
    if born > LATEST {
        return Ok(None);
    }
    let info = info_text(alloc, &namespace, volume, born)?;
    always(length_and_digest(alloc, info.as_slice()))
}

/// A text that is scanned.
#[derive(Clone, Copy)]
pub struct Scanned<'a> {
    pub bytes: &'a [u8],
    /// Whether it is said that the file goes on behind them.
    pub more: bool,
    /// The number of the group, or of the volume.
    pub number: u32,
    /// How many bytes may be asked for at most.
    pub most: u64,
}

/// `more` or `last`, a number, how many bytes may be asked for at most, and the text, each behind a space.
pub fn scanned_in(text: &[u8]) -> Option<Scanned<'_>> {
    let mut words = TextWords::of(text);
    Some(Scanned {
        more: words.word()? == "more",
        number: words.small_number()?,
        most: words.number()?,
        bytes: words.rest,
    })
}

/// What stands where a group may begin.
pub fn group_step(alloc: Global, text: &[u8]) -> Result<Option<Vec<u8>>, Memory> {
    let (Some(scanned), Ok(namespace)) = (scanned_in(text), Uuid::parse_str(NAMESPACE)) else {
        return Ok(None);
    };
    let (bytes, more) = (scanned.bytes, scanned.more);
    let step = next_group(alloc, bytes, more, &namespace, scanned.number);
    always(group_step_shown(alloc, &scanned, step))
}

fn group_step_shown(alloc: Global, scanned: &Scanned, step: GroupStep) -> Result<Vec<u8>, Memory> {
    match step {
        GroupStep::Group(group) => group_shown(alloc, &group),
        GroupStep::End => told(alloc, b"End"),
        GroupStep::Unfinished => told(alloc, b"Unfinished"),
        GroupStep::Damaged => told(alloc, b"Damaged"),
        GroupStep::Need(wanted) => need_shown(alloc, scanned, wanted),
        GroupStep::Memory => Err(Memory),
    }
}

/// What stands where a volume may begin.
pub fn info_step(alloc: Global, text: &[u8]) -> Result<Option<Vec<u8>>, Memory> {
    let Some(scanned) = scanned_in(text) else {
        return Ok(None);
    };
    let step = next_info(alloc, scanned.bytes, scanned.more, scanned.number);
    always(info_step_shown(alloc, &scanned, step))
}

fn info_step_shown(alloc: Global, scanned: &Scanned, step: InfoStep) -> Result<Vec<u8>, Memory> {
    match step {
        InfoStep::Info {
            namespace,
            born,
            len,
        } => info_shown(alloc, &namespace, born, len),
        InfoStep::End => told(alloc, b"End"),
        InfoStep::Unfinished => told(alloc, b"Unfinished"),
        InfoStep::Damaged => told(alloc, b"Damaged"),
        InfoStep::Need(wanted) => need_shown(alloc, scanned, wanted),
        InfoStep::Memory => Err(Memory),
    }
}

fn info_shown(alloc: Global, namespace: &Uuid, born: u64, len: u64) -> Result<Vec<u8>, Memory> {
    let text = format!(in alloc; "warcinfo {namespace} {born} {len}")?;
    told(alloc, text.as_bytes())
}

/// `Need`, where more bytes are asked for than there are and no more than may be; else with their number.
pub fn need_shown(alloc: Global, scanned: &Scanned, wanted: u64) -> Result<Vec<u8>, Memory> {
    let mut out = told(alloc, b"Need")?;
    if wanted <= scanned.bytes.len() as u64 || wanted > scanned.most {
        put_next_number(&mut out, wanted)?;
    }
    Ok(out)
}

/// The capture's parts, the length of its payload, the places of its head and its body, and the lengths of its first record and
/// of the group; and behind them what a revisit refers to.
fn group_shown(alloc: Global, group: &Group) -> Result<Vec<u8>, Memory> {
    let mut out = Vec::new(alloc);
    put_parts(&mut out, group)?;
    put_same(alloc, &mut out, &group.same)?;
    Ok(out)
}

/// Puts what a revisit refers to.
pub fn put_same(alloc: Global, out: &mut Vec<u8>, same: &Option<Revisited>) -> Result<(), Memory> {
    match same {
        Some(same) => {
            let (id, uri, date) = (&same.id, same.uri.as_str(), same.date);
            let text = format!(in alloc; " of {id} {uri} {date}")?;
            put_all(out, text.as_bytes())
        }
        None => Ok(()),
    }
}

fn put_parts(out: &mut Vec<u8>, group: &Group) -> Result<(), Memory> {
    let stored = &group.stored;
    put_number(out, u64::from(group.number))?;
    put_next(out, stored.method.as_slice())?;
    put_next(out, stored.uri.as_slice())?;
    put_next_number(out, stored.date)?;
    put_next(out, &base32_of(&group.digest))?;
    put_all(out, kept_text(&stored.kept))?;
    put_numbers(
        out,
        &[
            group.payload_len,
            group.head_at,
            group.body_at,
            group.first_len,
            group.len,
        ],
    )
}

/// Puts numbers behind others.
pub fn put_numbers(out: &mut Vec<u8>, values: &[u64]) -> Result<(), Memory> {
    for value in values {
        put_next_number(out, *value)?;
    }
    Ok(())
}

fn kept_text(kept: &Kept) -> &'static [u8] {
    match kept {
        Kept::Wire(_) => b" whole",
        Kept::Cut(_) => b" cut",
        Kept::Same(_) => b" same",
    }
}

/// A capture whose group is composed.
#[derive(Clone, Copy)]
struct Asked<'a> {
    number: u32,
    date: u64,
    /// The number of the capture that it is a revisit of.
    same: Option<u32>,
    uri: &'a str,
    /// What the origin sends, up to its end.
    stream: &'a [u8],
}

/// A number, a date in milliseconds, the number of another capture or `-`, a target, and the stream, each behind a space.
fn asked_in(text: &[u8]) -> Option<Asked<'_>> {
    let mut words = TextWords::of(text);
    Some(Asked {
        number: words.small_number()?,
        date: words.number()?,
        same: words.word()?.parse::<u32>().ok(),
        uri: words.word()?,
        stream: words.rest,
    })
}

/// The length and the digest of the group of a capture that was asked for by GET.
pub fn group_of(alloc: Global, text: &[u8]) -> Result<Option<Vec<u8>>, Memory> {
    let Some(asked) = asked_in(text) else {
        return Ok(None);
    };
    match received(alloc, false, asked.stream, asked.stream.len()) {
        Ok(response) => group_with(alloc, &asked, &response),
        Err(_) => Ok(None),
    }
}

fn group_with(
    alloc: Global,
    asked: &Asked,
    response: &Received,
) -> Result<Option<Vec<u8>>, Memory> {
    let Ok(payload) = payload_of_response(alloc, response) else {
        return Ok(None);
    };
    match capture_of(alloc, asked, response)? {
        Some(taken) => composed(alloc, asked, &taken, payload.as_slice()),
        None => Ok(None),
    }
}

/// `None` where no origin is asked for the target.
fn capture_of(alloc: Global, asked: &Asked, response: &Received) -> Result<Option<Taken>, Memory> {
    match request_for(alloc, asked.uri)? {
        Some(request) => taken_of(alloc, asked, request, response),
        None => Ok(None),
    }
}

/// What an origin is sent for a GET of the target. `None` where it isn't for an origin.
fn request_for(alloc: Global, uri: &str) -> Result<Option<Bytes>, Memory> {
    let text = format!(in alloc; "GET {uri} HTTP/1.1\r\n\r\n")?;
    match read_request(alloc, text.as_bytes()) {
        Ok(message) => forwarded_for(alloc, &message),
        Err(_) => Ok(None),
    }
}

/// `None` where the target isn't ASCII.
fn taken_of(
    alloc: Global,
    asked: &Asked,
    request: Bytes,
    response: &Received,
) -> Result<Option<Taken>, Memory> {
    let Some(uri) = Text::of(told(alloc, asked.uri.as_bytes())?) else {
        return Ok(None);
    };
    Ok(Some(Taken {
        method: Text::from_str(alloc, "GET")?,
        uri,
        date: asked.date,
        request,
        head: response.head.text.copy()?,
        wire: response.wire.copy()?,
        cut: response.cut,
    }))
}

/// The length and the digest of the group's text. `None` where a record can't have the date.
fn composed(
    alloc: Global,
    asked: &Asked,
    taken: &Taken,
    payload: &[u8],
) -> Result<Option<Vec<u8>>, Memory> {
    let Ok(namespace) = Uuid::parse_str(NAMESPACE) else {
        return Ok(None);
    };
    if taken.date > LATEST {
        return Ok(None);
    }
    let digest = payload_digest(payload);
    let text = match asked.same {
        Some(number) => {
            let same = SameOf {
                number,
                uri: Text::from_str(alloc, SAME_URI)?,
                date: SAME_DATE,
            };
            group_text(alloc, &namespace, asked.number, taken, &digest, Some(&same))?
        }
        None => group_text(alloc, &namespace, asked.number, taken, &digest, None)?,
    };
    always(length_and_digest(alloc, text.as_slice()))
}
