//! A capture that is to be stored: a request for an origin, and what that sends up to its end.
ghost use Rattle.std.specs.Prelude.{◌≡◌, ℕ, List, IfOk, IfSome};
ghost use Rattle.capture.specs.Methods.{asks_for_head};
ghost use Rattle.capture.specs.Payload.{IsPayload};
ghost use Rattle.case_captures.specs.Preparing.{IsOf, IsPrepared};
ghost use Rattle.http_wire.specs.Messages.{IsOneResponse};
ghost use Rattle.exchange.specs.Storing.{IsForOrigin};
ghost use Rattle.http_wire.specs.Messages.{IsRequest};
ghost use Rattle.warc_text.specs.Fits.{Fits};

use capture::{Bytes, Memory, Site, Taken, Text};
use case_language::{number_in, split_word};
use case_messages::received;
use exchange::{Aim, AimFault, Target, aim_of, forward_text, requests_can_be_stored};
use http_head::{Received, RequestMessage, WireFault};
use http_wire::{Progress, RequestReader, responses_can_be_stored};
use message_body::{PayloadFault, payload_in};
use std::alloc::Global;
use time_text::LATEST;

/// A date in milliseconds, a method, a target, and what the origin sends up to its end, each behind a space.
#[derive(Clone, Copy)]
pub struct Exchanged<'a> {
    pub date: u64,
    pub method: &'a str,
    pub uri: &'a str,
    pub stream: &'a [u8],
}

/// The parts of a step `store`.
pub fn exchanged_in(text: &[u8]) -> Option<Exchanged<'_>> {
    let (date, rest) = split_word(text)?;
    let (method, rest) = split_word(rest)?;
    let (uri, stream) = split_word(rest)?;
    Some(Exchanged {
        date: number_in(date.as_bytes())?,
        method,
        uri,
        stream,
    })
}

/// A capture that is to be stored.
#[derive(Drop)]
pub struct Prepared {
    pub taken: Taken,
    /// Its payload, as the wire has it.
    pub payload: Bytes,
}

/// The capture. `None` where it is none that may be stored: no request for an origin, no final response, or a date that a record
/// can't have.
pub fn prepared_of(alloc: Global, exchanged: &Exchanged) -> Result<Option<Prepared>, Memory>
    ensures { IfOk result (λ found. IfSome found IsPrepared) }
{
    let (method, uri) = (exchanged.method, exchanged.uri);
    let text = format!(in alloc; "{method} {uri} HTTP/1.1\r\n\r\n")?;
    match request_in(alloc, text.as_bytes()) {
        Ok(Some(message)) => answered(alloc, exchanged, &message),
        Ok(None) => Ok(None),
        Err(WireFault::Memory) => Err(Memory),
        Err(_) => Ok(None),
    }
}

/// The request that a text is.
fn request_in(alloc: Global, text: &[u8]) -> Result<Option<RequestMessage>, WireFault>
    ensures { IfOk result (λ found. IfSome found (λ message. (stream : List ℕ) × IsRequest stream message)) }
{
    let mut reader = RequestReader::new(alloc);
    let fed = reader.feed(alloc, text)?;
    let (_, rest) = text.split_at(fed.used);
    match fed.progress {
        Progress::Head => {}
        _ => return Ok(None),
    }
    let fed = reader.feed(alloc, rest)?;
    match fed.progress {
        Progress::Whole => match reader.take(alloc) {
            Ok(message) => Ok(Some(message)),
            Err(Memory) => Err(WireFault::Memory),
        },
        _ => Ok(None),
    }
}

/// Whether a request is answered with a head alone (RFC 9110, section 9.3.2).
fn gets_head(message: &RequestMessage) -> bool
    ensures { result ≡ asks_for_head message.now.head.method }
{
    message.head.method.as_slice() == b"HEAD".as_slice()
}

/// The capture of a request and what its origin sends.
fn answered(
    alloc: Global,
    exchanged: &Exchanged,
    message: &RequestMessage,
) -> Result<Option<Prepared>, Memory>
    requires { (stream : List ℕ) × IsRequest stream message.now }
    ensures { IfOk result (λ found. IfSome found IsPrepared) }
{
    let Some(target) = target_of(alloc, message)? else {
        return Ok(None);
    };
    let answers_head = gets_head(message);
    let length = exchanged.stream.len();
    match received(alloc, answers_head, exchanged.stream, length) {
        Ok(response) => prepared_with(alloc, exchanged.date, message, &target, &response),
        Err(WireFault::Memory) => Err(Memory),
        Err(_) => Ok(None),
    }
}

/// The origin that the request is aimed at; the site is `http://localhost:8080`.
fn target_of(alloc: Global, message: &RequestMessage) -> Result<Option<Target>, Memory>
    requires { (stream : List ℕ) × IsRequest stream message.now }
    ensures { IfOk result (λ found. IfSome found (λ target. IsForOrigin message.now target)) }
{
    let site = Site {
        base: Text::from_str(alloc, "http://localhost:8080")?,
        host: Text::from_str(alloc, "localhost")?,
        port: 8080,
    };
    match aim_of(alloc, &message.head, &site) {
        Ok(Aim::Origin(target)) => Ok(Some(target)),
        Ok(Aim::Site(_)) => Ok(None),
        Err(AimFault::Memory) => Err(Memory),
        Err(_) => Ok(None),
    }
}

/// The longest wire that is stored, in bytes.
const WIRE_LIMIT: u64 = 1 << 40;

/// The capture and its payload. `None` where the capture may not be stored.
fn prepared_with(
    alloc: Global,
    date: u64,
    message: &RequestMessage,
    target: &Target,
    response: &Received,
) -> Result<Option<Prepared>, Memory>
    requires origin { IsForOrigin message.now target.now }
    requires response { IsOneResponse (asks_for_head message.now.head.method) response.now }
    ensures { IfOk result (λ found. IfSome found IsPrepared) }
{
    match payload_by(alloc, response) {
        Ok(Some(payload)) => with_payload(alloc, date, message, target, response, payload),
        Ok(None) => Ok(None),
        Err(Memory) => Err(Memory),
    }
}

fn with_payload(
    alloc: Global,
    date: u64,
    message: &RequestMessage,
    target: &Target,
    response: &Received,
    payload: Bytes,
) -> Result<Option<Prepared>, Memory>
    requires origin { IsForOrigin message.now target.now }
    requires response { IsOneResponse (asks_for_head message.now.head.method) response.now }
    requires payload { IsPayload response.now.cut response.now.framing response.now.wire payload }
    ensures { IfOk result (λ found. IfSome found IsPrepared) }
{
    match taken_with(alloc, date, message, target, response) {
        Ok(Some(taken)) => Ok(Some(Prepared { taken, payload })),
        Ok(None) => Ok(None),
        Err(Memory) => Err(Memory),
    }
}

/// The payload of a response, whole or cut.
fn payload_by(alloc: Global, response: &Received) -> Result<Option<Bytes>, Memory>
    ensures { IfOk result (λ found. IfSome found (IsPayload response.now.cut response.now.framing response.now.wire)) }
{
    let wire = response.wire.as_slice();
    match payload_in(alloc, response.framing, wire, response.cut) {
        Ok(payload) => Ok(Some(payload.into_bytes(alloc)?)),
        Err(PayloadFault::Malformed) => Ok(None),
        Err(PayloadFault::Memory) => Err(Memory),
    }
}

/// The capture. `None` where the response isn't final, or a record can't have the date.
fn taken_with(
    alloc: Global,
    date: u64,
    message: &RequestMessage,
    target: &Target,
    response: &Received,
) -> Result<Option<Taken>, Memory>
    requires origin { IsForOrigin message.now target.now }
    requires response { IsOneResponse (asks_for_head message.now.head.method) response.now }
    ensures fits { IfOk result (λ found. IfSome found Fits) }
    ensures is { IfOk result (λ found. IfSome found (IsOf message.now.head.method response.now)) }
{
    requests_can_be_stored();
    responses_can_be_stored();
    if response.head.status < 200
        || date > LATEST
        || response.wire.as_slice().len() as u64 > WIRE_LIMIT
    {
        return Ok(None);
    }
    let request = forward_text(alloc, message, target)?;
    Ok(Some(Taken {
        method: message.head.method.copy()?,
        uri: target.uri.copy()?,
        date,
        request,
        head: response.head.text.copy()?,
        wire: response.wire.copy()?,
        cut: response.cut,
    }))
}
