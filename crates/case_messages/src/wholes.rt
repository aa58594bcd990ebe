//! Calls of `http_wire`.
ghost use Rattle.std.specs.Prelude.{◌≡◌, ◌⊎◌, ℕ, List, IfOk, IfNone};
ghost use Rattle.http_wire.specs.Messages.{IsResponse};
ghost use Rattle.http_wire.specs.Reading.{Open, Whole};

use crate::faults::fault_shown;
use crate::framings::put_framing;
use capture::{Memory, put_all, put_number};
use case_language::in_pieces;
use case_texts::{always, told};
use http_head::{Received, RequestMessage, WireFault};
use http_wire::{Progress, RequestReader, ResponseReader};
use std::alloc::Global;
use whole_request::read_request;

/// What tells the request's length, and its payload; or the fault.
pub fn request_message(alloc: Global, text: &[u8]) -> Result<Vec<u8>, Memory> {
    match read_request(alloc, text) {
        Ok(message) => request_shown(alloc, &message),
        Err(fault) => fault_shown(alloc, fault),
    }
}

/// The request's method, what tells its length, and its payload.
pub fn request_shown(alloc: Global, message: &RequestMessage) -> Result<Vec<u8>, Memory> {
    let mut out = Vec::new(alloc);
    put_request(&mut out, message)?;
    Ok(out)
}

fn put_request(out: &mut Vec<u8>, message: &RequestMessage) -> Result<(), Memory> {
    put_all(out, message.head.method.as_slice())?;
    put_all(out, b" ")?;
    put_framing(out, message.framing)?;
    put_all(out, b" ")?;
    put_all(out, message.payload.as_slice())
}

/// The first request of a stream that comes in two pieces, as `request_message` shows it; `More` where more is to come; or
/// the fault. The text is the length of the first piece, a space, and the stream.
pub fn request_stream(alloc: Global, text: &[u8]) -> Result<Option<Vec<u8>>, Memory> {
    let Some((length, stream)) = in_pieces(text) else {
        return Ok(None);
    };
    let (front, back) = stream.split_at(stream.len().min(length));
    match first_request(alloc, front, back) {
        Ok(Some(message)) => always(request_shown(alloc, &message)),
        Ok(None) => always(told(alloc, b"More")),
        Err(fault) => always(fault_shown(alloc, fault)),
    }
}

fn first_request(
    alloc: Global,
    front: &[u8],
    back: &[u8],
) -> Result<Option<RequestMessage>, WireFault> {
    let mut reader = RequestReader::new(alloc);
    match fed(alloc, &mut reader, front) {
        Ok(Some(message)) => Ok(Some(message)),
        Ok(None) => at_the_end(alloc, &mut reader, back),
        Err(fault) => Err(fault),
    }
}

/// The message that is whole with the last bytes, if one is.
fn at_the_end(
    alloc: Global,
    reader: &mut RequestReader,
    back: &[u8],
) -> Result<Option<RequestMessage>, WireFault>
    requires { reader.old.standing ≡ Open }
{
    match fed(alloc, reader, back) {
        Ok(Some(message)) => Ok(Some(message)),
        Ok(None) => match reader.end() {
            Ok(()) => Ok(None),
            Err(fault) => Err(fault),
        },
        Err(fault) => Err(fault),
    }
}

/// The message that is whole with this piece, if one is.
fn fed(
    alloc: Global,
    reader: &mut RequestReader,
    piece: &[u8],
) -> Result<Option<RequestMessage>, WireFault>
    requires { reader.old.standing ≡ Open }
    ensures { IfOk result (λ message. IfNone message (reader.new.standing ≡ Open)) }
{
    let fed = reader.feed(alloc, piece)?;
    match fed.progress {
        Progress::More => Ok(None),
        Progress::Whole => taken(alloc, reader),
        Progress::Head => {
            let (_, rest) = piece.split_at(fed.used);
            behind_head(alloc, reader, rest)
        }
    }
}

/// The message that is whole with these bytes behind its head, if one is.
fn behind_head(
    alloc: Global,
    reader: &mut RequestReader,
    rest: &[u8],
) -> Result<Option<RequestMessage>, WireFault>
    requires { (reader.old.standing ≡ Open) ⊎ (reader.old.standing ≡ Whole) }
    ensures { IfOk result (λ message. IfNone message (reader.new.standing ≡ Open)) }
{
    let fed = reader.feed(alloc, rest)?;
    match fed.progress {
        Progress::More => Ok(None),
        Progress::Whole => taken(alloc, reader),
        // A head is told once.
        Progress::Head => Err(WireFault::Malformed),
    }
}

fn taken(alloc: Global, reader: &mut RequestReader) -> Result<Option<RequestMessage>, WireFault>
    requires { reader.old.standing ≡ Whole }
    ensures { IfOk result (λ message. IfNone message (reader.new.standing ≡ Open)) }
{
    match reader.take(alloc) {
        Ok(message) => Ok(Some(message)),
        Err(Memory) => Err(WireFault::Memory),
    }
}

/// The first response of a stream that comes in pieces and ends: its status, what tells its length, whether it was cut,
/// and its wire; or the fault. The text is the length of a piece, a space, and the stream.
pub fn response_message(alloc: Global, text: &[u8]) -> Result<Option<Vec<u8>>, Memory> {
    let Some((length, stream)) = in_pieces(text) else {
        return Ok(None);
    };
    match received(alloc, false, stream, length) {
        Ok(response) => always(response_shown(alloc, &response)),
        Err(fault) => always(fault_shown(alloc, fault)),
    }
}

/// The first response of a stream that comes in pieces of the length and ends.
pub fn received(
    alloc: Global,
    answers_head: bool,
    stream: &[u8],
    length: usize,
) -> Result<Received, WireFault>
    ensures { IfOk result (λ response. (stream : List ℕ) × IsResponse answers_head stream response) }
{
    let mut reader = ResponseReader::new(alloc, answers_head);
    for piece in stream.chunks(length.max(1)) {
        let fed = reader.feed(alloc, piece)?;
        let (_, rest) = piece.split_at(fed.used);
        reader.feed(alloc, rest)?;
    }
    reader.end()?;
    Ok(reader.take())
}

/// The response's status, what tells its length, whether it was cut, and its wire.
pub fn response_shown(alloc: Global, response: &Received) -> Result<Vec<u8>, Memory> {
    let mut out = Vec::new(alloc);
    put_response(&mut out, response)?;
    Ok(out)
}

fn put_response(out: &mut Vec<u8>, response: &Received) -> Result<(), Memory> {
    put_number(out, u64::from(response.head.status))?;
    put_all(out, b" ")?;
    put_framing(out, response.framing)?;
    put_all(out, cut_mark(response.cut))?;
    put_all(out, response.wire.as_slice())
}

/// What stands before a wire.
fn cut_mark(cut: bool) -> &'static [u8] {
    if cut {
        return b" (cut) ";
    }
    b" "
}
