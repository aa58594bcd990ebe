//! Calls of `warc_scan` that copy no body.
use crate::records::{NAMESPACE, Scanned, need_shown, put_numbers, put_same, scanned_in};
use capture::{Memory, put_all, put_number};
use case_texts::{always, put_next, put_next_number, told};
use digest32::base32_of;
use record_opening::{FirstOpening, NoRecord, Refers};
use std::alloc::Global;
use uuid::Uuid;
use warc_scan::{Outline, next_opening, next_outline};

/// What stands where a group may begin, without its bodies.
pub fn outline_step(alloc: Global, text: &[u8]) -> Result<Option<Vec<u8>>, Memory> {
    let (Some(scanned), Ok(namespace)) = (scanned_in(text), Uuid::parse_str(NAMESPACE)) else {
        return Ok(None);
    };
    let (bytes, more) = (scanned.bytes, scanned.more);
    match next_outline(alloc, bytes, more, &namespace, scanned.number) {
        Ok(outline) => always(outline_shown(alloc, &outline)),
        Err(why) => always(why_shown(alloc, &scanned, why)),
    }
}

/// What the opening of a first record says.
pub fn opening_step(alloc: Global, text: &[u8]) -> Result<Option<Vec<u8>>, Memory> {
    let (Some(scanned), Ok(namespace)) = (scanned_in(text), Uuid::parse_str(NAMESPACE)) else {
        return Ok(None);
    };
    let (bytes, more) = (scanned.bytes, scanned.more);
    match next_opening(alloc, bytes, more, &namespace, scanned.number) {
        Ok(first) => always(opening_shown(alloc, &first)),
        Err(why) => always(why_shown(alloc, &scanned, why)),
    }
}

/// Why nothing is told.
fn why_shown(alloc: Global, scanned: &Scanned, why: NoRecord) -> Result<Vec<u8>, Memory> {
    match why {
        NoRecord::End => told(alloc, b"End"),
        NoRecord::Unfinished => told(alloc, b"Unfinished"),
        NoRecord::Damaged => told(alloc, b"Damaged"),
        NoRecord::Need(wanted) => need_shown(alloc, scanned, wanted),
        NoRecord::Memory => Err(Memory),
    }
}

/// The capture's parts; the lengths of its request, of its payload and of its body as it came; the places of its head and its
/// body, and the lengths of its first record and of the group; and behind them what a revisit refers to.
fn outline_shown(alloc: Global, outline: &Outline) -> Result<Vec<u8>, Memory> {
    let mut out = Vec::new(alloc);
    put_outline(&mut out, outline)?;
    put_same(alloc, &mut out, &outline.same)?;
    Ok(out)
}

fn put_outline(out: &mut Vec<u8>, outline: &Outline) -> Result<(), Memory> {
    put_number(out, u64::from(outline.number))?;
    put_next(out, outline.method.as_slice())?;
    put_next(out, outline.uri.as_slice())?;
    put_next_number(out, outline.date)?;
    put_next(out, &base32_of(&outline.digest))?;
    put_next_number(out, u64::from(outline.head.status))?;
    put_all(out, cut_text(outline.cut))?;
    put_numbers(
        out,
        &[
            outline.request_len,
            outline.payload_len,
            outline.wire_len,
            outline.head_at,
            outline.body_at,
            outline.first_len,
            outline.len,
        ],
    )
}

fn cut_text(cut: bool) -> &'static [u8] {
    if cut { b" cut" } else { b" whole" }
}

/// The date, the target and the digest, whether the response was cut, the place of the block and its length; and behind them
/// what a revisit refers to.
fn opening_shown(alloc: Global, first: &FirstOpening<'_>) -> Result<Vec<u8>, Memory> {
    let mut out = Vec::new(alloc);
    put_opening(&mut out, first)?;
    put_refers(alloc, &mut out, &first.opening.same)?;
    Ok(out)
}

fn put_refers(alloc: Global, out: &mut Vec<u8>, same: &Option<Refers<'_>>) -> Result<(), Memory> {
    match same {
        Some(same) => {
            let (id, date) = (&same.id, same.date);
            let text = format!(in alloc; " of {id} {date} ")?;
            put_all(out, text.as_bytes())?;
            put_all(out, same.uri)
        }
        None => Ok(()),
    }
}

fn put_opening(out: &mut Vec<u8>, first: &FirstOpening<'_>) -> Result<(), Memory> {
    put_number(out, first.opening.date)?;
    put_next(out, first.opening.uri)?;
    put_next(out, &base32_of(&first.opening.digest))?;
    put_all(out, cut_text(first.opening.cut))?;
    put_numbers(out, &[first.block_at, first.block_len])
}
