//! Calls of `exchange`. The site is `http://localhost:8080`.
ghost use Rattle.std.specs.Prelude.{IfOk};
ghost use Rattle.capture.specs.Payload.{IsPayload};
ghost use Rattle.http_wire.specs.Messages.{IsOneResponse};

use capture::{Bytes, Memory, put_all};
use case_language::TextWords;
use case_messages::{fault_shown, received};
use case_texts::{always, put_next, put_next_number, site_of, told};
use exchange::{Aim, AimFault, Target, aim_of, forward_text, put_client_head};
use http_head::{Received, RequestHead, RequestMessage, read_request_head};
use message_body::{PayloadFault, payload_in};
use std::alloc::Global;
use whole_request::read_request;

/// Where a request of this head is aimed; `Malformed` where the text is no head.
pub fn aim_shown(alloc: Global, text: &[u8]) -> Result<Vec<u8>, Memory> {
    match read_request_head(alloc, text) {
        Ok(head) => aim_text(alloc, aim_of(alloc, &head, &site_of(alloc)?)),
        Err(fault) => fault_shown(alloc, fault),
    }
}

/// `origin` with the target as it was sent, the host, the port and the target that the origin gets; `site` with the address;
/// or the fault.
fn aim_text(alloc: Global, aim: Result<Aim, AimFault>) -> Result<Vec<u8>, Memory> {
    match aim {
        Ok(Aim::Origin(target)) => target_text(alloc, &target),
        Ok(Aim::Site(path)) => {
            let mut out = told(alloc, b"site ")?;
            put_all(&mut out, path.as_slice())?;
            Ok(out)
        }
        Err(AimFault::ConnectRefused) => told(alloc, b"ConnectRefused"),
        Err(AimFault::SecureRefused) => told(alloc, b"SecureRefused"),
        Err(AimFault::TargetRefused) => told(alloc, b"TargetRefused"),
        Err(AimFault::Memory) => Err(Memory),
    }
}

fn target_text(alloc: Global, target: &Target) -> Result<Vec<u8>, Memory> {
    let mut out = Vec::new(alloc);
    put_target(&mut out, target)?;
    Ok(out)
}

fn put_target(out: &mut Vec<u8>, target: &Target) -> Result<(), Memory> {
    put_all(out, b"origin")?;
    put_next(out, target.uri.as_slice())?;
    put_next(out, target.host.as_slice())?;
    put_next_number(out, u64::from(target.port))?;
    put_next(out, target.path.as_slice())
}

/// The origin that a request of this head is aimed at. `None` where it is aimed at none.
pub fn aimed_at(alloc: Global, head: &RequestHead) -> Result<Option<Target>, Memory> {
    match aim_of(alloc, head, &site_of(alloc)?) {
        Ok(Aim::Origin(target)) => Ok(Some(target)),
        Ok(Aim::Site(_)) => Ok(None),
        Err(AimFault::Memory) => Err(Memory),
        Err(_) => Ok(None),
    }
}

/// What an origin gets of a whole request; `Malformed` where the text is none, and `None` where it isn't for an origin.
pub fn forwarded(alloc: Global, text: &[u8]) -> Result<Vec<u8>, Memory> {
    match read_request(alloc, text) {
        Ok(message) => match forwarded_for(alloc, &message) {
            Ok(Some(text)) => told(alloc, text.as_slice()),
            Ok(None) => told(alloc, b"None"),
            Err(Memory) => Err(Memory),
        },
        Err(fault) => fault_shown(alloc, fault),
    }
}

/// What an origin gets of the request. `None` where it isn't for an origin.
pub fn forwarded_for(alloc: Global, message: &RequestMessage) -> Result<Option<Bytes>, Memory> {
    match aimed_at(alloc, &message.head)? {
        Some(target) => Ok(Some(forward_text(alloc, message, &target)?)),
        None => Ok(None),
    }
}

/// What a client gets of the first response of a stream that ends, or the fault. The text is the method of the request,
/// `closes` or `stays`, and the stream, each behind a space.
pub fn passed_on(alloc: Global, text: &[u8]) -> Result<Option<Vec<u8>>, Memory> {
    let mut words = TextWords::of(text);
    let (Some(method), Some(word)) = (words.word(), words.word()) else {
        return Ok(None);
    };
    let stream = words.rest;
    let answers_head = method == "HEAD";
    match received(alloc, answers_head, stream, stream.len()) {
        Ok(response) => always(client_shown(alloc, &response, answers_head, word == "closes")),
        Err(fault) => always(fault_shown(alloc, fault)),
    }
}

fn client_shown(
    alloc: Global,
    response: &Received,
    answers_head: bool,
    closes: bool,
) -> Result<Vec<u8>, Memory>
    requires { IsOneResponse answers_head response.now }
{
    let payload = match payload_of_response(alloc, response) {
        Ok(payload) => payload,
        Err(PayloadFault::Memory) => return Err(Memory),
        Err(PayloadFault::Malformed) => return told(alloc, b"Malformed"),
    };
    let mut text = Vec::new(alloc);
    let len = payload.as_slice().len() as u64;
    put_client_head(alloc, &mut text, response, len, answers_head, closes)?;
    put_all(&mut text, payload.as_slice())?;
    told(alloc, text.as_slice())
}

/// The payload of a response, whole or cut.
pub fn payload_of_response(alloc: Global, response: &Received) -> Result<Bytes, PayloadFault>
    ensures { IfOk result (λ payload. IsPayload response.now.cut response.now.framing response.now.wire payload) }
{
    let wire = response.wire.as_slice();
    let payload = payload_in(alloc, response.framing, wire, response.cut)?;
    Ok(payload.into_bytes(alloc)?)
}
