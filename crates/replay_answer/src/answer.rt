//! Mementos.
ghost use Rattle.std.specs.Prelude.{◌≡◌, ◌++◌, IfOk, OnOk, unwrap_or};
ghost use Rattle.time_text.specs.Texts.{InRange};
ghost use Rattle.http_head.specs.Heads.{HoldsResponse};
ghost use Rattle.replay_answer.specs.Mementos.{IsHead, IsMemento, answer_rest, capture_lines, delivery_of, parts_in, sent_body};

use crate::body::page_of;
use crate::fields::put_fields;
use crate::lines::{put_datetime_line, put_length_where, put_links};
use crate::replay::Replay;
use capture::{Brought, Bytes, Memory, Site};
use head_lines::{
    put_body_unless, put_close_line_where, put_line_end, put_status_line, tells_no_length,
};
use http_head::{ResponseHead, WireFault, read_head};
use std::alloc::Global;

/// About as much as the answer adds to the head that was received, besides the base and the URL.
const ADDED: usize = 1024;

/// The memento of a capture (RFC 7089), whose head is that of a response and whose date has a text.
///
/// It has the status and the fields that were received: Content-Encoding, Content-Language, Content-Type and Location under
/// their own names, each other one with `X-Archive-Orig-` before its name. Then come Memento-Datetime, the links, and the
/// length of the body that a GET gets, unless the status is 204 or 304.
///
/// Where it is given as it was received (`raw`), the body is the payload. Else a Location leads to the archive, and so do
/// the links of a page of HTML without a coding, unless it would be too long. The answer to HEAD has no body. `closes`
/// says whether the connection closes.
pub fn memento(
    alloc: Global,
    site: &Site,
    brought: &Brought,
    raw: bool,
    answers_head: bool,
    closes: bool,
) -> Result<Bytes, Memory>
    requires head { IsHead brought.now.head }
    requires in_range { InRange brought.now.date }
    ensures { IfOk result (IsMemento site.now.base brought.now (delivery_of raw answers_head closes)) }
{
    let head = head_of(alloc, brought)?;
    let replay = Replay {
        site,
        capture: brought,
        raw,
    };
    let page = page_of(alloc, &replay, head.fields.as_slice())?;
    let sent = Sent {
        body: body_in(&page, &brought.payload),
        answers_head,
        closes,
    };
    memento_with(alloc, &replay, &head, &sent)
}

/// How a body is sent.
#[derive(Clone, Copy)]
struct Sent<'b> {
    body: &'b [u8],
    answers_head: bool,
    closes: bool,
}

/// The memento with this body.
fn memento_with(
    alloc: Global,
    replay: &Replay,
    head: &ResponseHead,
    sent: &Sent,
) -> Result<Bytes, Memory>
    requires { InRange replay.now.capture.now.date }
    ensures { IfOk result (λ text. text ≡ capture_lines replay.now.site.now.base replay.now.capture.now replay.now.raw (parts_in head.now)
        ++ answer_rest head.now.status sent.now.answers_head sent.now.closes sent.now.body.now) }
{
    let mut out = Vec::with_capacity(alloc, room(replay, head, sent.body))?;
    put_capture_lines(&mut out, replay, head)?;
    put_rest(&mut out, head.status, sent)?;
    Ok(Bytes::of(out))
}

/// The parts of the head that was received.
fn head_of(alloc: Global, brought: &Brought) -> Result<ResponseHead, Memory>
    requires { IsHead brought.now.head }
    ensures { IfOk result (HoldsResponse brought.now.head) }
{
    match read_head(alloc, brought.head.as_slice()) {
        Ok(head) => Ok(head),
        Err(WireFault::Memory) => Err(Memory),
        Err(WireFault::Malformed) => unreachable!(),
        Err(WireFault::HeadTooLong) => unreachable!(),
        Err(WireFault::BodyTooLong) => unreachable!(),
        Err(WireFault::CodingRefused) => unreachable!(),
        Err(WireFault::EndedEarly) => unreachable!(),
    }
}

/// The page, or the payload where there is none.
fn body_in<'a>(page: &'a Option<Bytes>, payload: &'a Bytes) -> &'a [u8]
    ensures { result.now ≡ unwrap_or page.now payload.now }
{
    match page {
        Some(page) => page.as_slice(),
        None => payload.as_slice(),
    }
}

/// Puts what is told of the capture.
#[tactic(auto, unfolding(crate::specs::Mementos::capture_lines))]
fn put_capture_lines(out: &mut Vec<u8>, replay: &Replay, head: &ResponseHead) -> Result<(), Memory>
    requires { InRange replay.now.capture.now.date }
    ensures { OnOk result (out.new.items ≡ out.old.items
        ++ capture_lines replay.now.site.now.base replay.now.capture.now replay.now.raw (parts_in head.now)) }
{
    put_status_line(out, head.status, head.reason.as_slice())?;
    put_fields(out, replay, head.fields.as_slice())?;
    put_datetime_line(out, replay.capture.date)?;
    put_links(out, replay.site, replay.capture.uri.as_slice())
}

/// Puts what is told of the answer itself, and the body where it is sent.
#[tactic(auto, unfolding(crate::specs::Mementos::answer_rest))]
fn put_rest(out: &mut Vec<u8>, status: u16, sent: &Sent) -> Result<(), Memory>
    ensures { OnOk result (out.new.items ≡ out.old.items
        ++ answer_rest status sent.now.answers_head sent.now.closes sent.now.body.now) }
{
    put_length_where(out, status, sent.body.len())?;
    put_close_line_where(out, sent.closes)?;
    put_line_end(out)?;
    put_body(out, sent.answers_head, status, sent.body)
}

/// Puts the body, where the answer has one.
fn put_body(out: &mut Vec<u8>, answers_head: bool, status: u16, body: &[u8]) -> Result<(), Memory>
    ensures { OnOk result (out.new.items ≡ out.old.items ++ sent_body answers_head status body.now) }
{
    let without = answers_head || tells_no_length(status);
    put_body_unless(out, without, body)
}

/// About as much as the answer takes.
fn room(replay: &Replay, head: &ResponseHead, body: &[u8]) -> usize {
    let names = head.fields.as_slice().len().saturating_mul(16);
    let url = replay.capture.uri.as_slice().len();
    let links = replay
        .site
        .base
        .as_slice()
        .len()
        .saturating_add(url)
        .saturating_mul(4);
    let lines = head
        .text
        .as_slice()
        .len()
        .saturating_add(names)
        .saturating_add(links);
    lines.saturating_add(body.len()).saturating_add(ADDED)
}
