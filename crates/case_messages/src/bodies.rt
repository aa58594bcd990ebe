//! Calls of `body_reader` and `message_body` over bodies. Each text begins with what tells the body's length.
use crate::faults::fault_text;
use crate::framings::split_framing;
use body_reader::{BodyProgress, BodyReader};
use capture::{BODY_LIMIT, Bytes, Framing, Memory};
use case_language::in_pieces;
use case_texts::{always, put_next, put_next_number, told};
use message_body::{PayloadFault, payload_of, payload_of_cut};
use std::alloc::Global;

/// How far a body comes that is fed in pieces, how many bytes were taken, and its payload as far as it came. What tells
/// its length is followed by the length of a piece and the stream, each behind a space.
pub fn body_stream(alloc: Global, text: &[u8]) -> Result<Option<Vec<u8>>, Memory> {
    let Some((framing, rest)) = split_framing(text) else {
        return Ok(None);
    };
    let Some((length, stream)) = in_pieces(rest) else {
        return Ok(None);
    };
    match reader_of(alloc, framing)? {
        Some(reader) => always(fed(alloc, reader, stream, length)),
        None => Ok(None),
    }
}

/// `None` where the length passes the limit of bodies.
#[tactic(auto, using(crate::proofs::FramingLaws::length_within))]
fn reader_of(alloc: Global, framing: Framing) -> Result<Option<BodyReader>, Memory> {
    match framing {
        Framing::Empty => Ok(Some(BodyReader::new(alloc, Framing::Empty)?)),
        Framing::Chunked => Ok(Some(BodyReader::new(alloc, Framing::Chunked)?)),
        Framing::ToEnd => Ok(Some(BodyReader::new(alloc, Framing::ToEnd)?)),
        Framing::Length(length) => {
            if length > BODY_LIMIT {
                return Ok(None);
            }
            Ok(Some(BodyReader::new(alloc, Framing::Length(length))?))
        }
    }
}

/// Feeds all pieces, those behind the body's end or its fault too.
fn fed(alloc: Global, reader: BodyReader, stream: &[u8], length: usize) -> Result<Vec<u8>, Memory> {
    let mut reader = reader;
    let framing = reader.framing();
    let mut progress = reader.feed(b"")?.progress;
    for piece in stream.chunks(length.max(1)) {
        progress = reader.feed(piece)?.progress;
    }
    let wire = reader.into_wire();
    let wire = wire.as_slice();
    match progress {
        BodyProgress::More => came(alloc, b"More", wire, payload_so_far(alloc, framing, wire)),
        BodyProgress::Whole => came(alloc, b"Whole", wire, payload_of(alloc, framing, wire)),
        BodyProgress::Refused(fault) => reached(alloc, fault_text(fault), wire),
    }
}

/// What came of the payload of a body that is to go on.
fn payload_so_far(alloc: Global, framing: Framing, wire: &[u8]) -> Result<Bytes, PayloadFault> {
    match framing {
        // Where the stream ended here the body would be whole.
        Framing::ToEnd => payload_of(alloc, framing, wire),
        _ => payload_of_cut(alloc, framing, wire),
    }
}

fn came(
    alloc: Global,
    word: &[u8],
    wire: &[u8],
    payload: Result<Bytes, PayloadFault>,
) -> Result<Vec<u8>, Memory> {
    let mut out = reached(alloc, word, wire)?;
    put_next(&mut out, payload_shown(alloc, payload)?.as_slice())?;
    Ok(out)
}

/// The word, and how many bytes were taken.
fn reached(alloc: Global, word: &[u8], wire: &[u8]) -> Result<Vec<u8>, Memory> {
    let mut out = told(alloc, word)?;
    put_next_number(&mut out, wire.len() as u64)?;
    Ok(out)
}

/// The payload of a whole body, whose wire follows the space.
pub fn whole_payload(alloc: Global, text: &[u8]) -> Result<Option<Vec<u8>>, Memory> {
    match split_framing(text) {
        Some((framing, wire)) => {
            let payload = payload_of(alloc, framing, wire);
            always(payload_shown(alloc, payload))
        }
        None => Ok(None),
    }
}

/// The payload of a body that was cut, whose wire follows the space.
pub fn cut_payload(alloc: Global, text: &[u8]) -> Result<Option<Vec<u8>>, Memory> {
    match split_framing(text) {
        Some((framing, wire)) => {
            let payload = payload_of_cut(alloc, framing, wire);
            always(payload_shown(alloc, payload))
        }
        None => Ok(None),
    }
}

fn payload_shown(alloc: Global, payload: Result<Bytes, PayloadFault>) -> Result<Vec<u8>, Memory> {
    match payload {
        Ok(payload) => told(alloc, payload.as_slice()),
        Err(PayloadFault::Malformed) => told(alloc, b"Malformed"),
        Err(PayloadFault::Memory) => Err(Memory),
    }
}
