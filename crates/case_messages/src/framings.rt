//! What tells a body's length, as a text: `Empty`, `Length` and a number, `Chunked`, or `ToEnd`.
use crate::faults::fault_shown;
use capture::{Framing, Memory, put_all, put_number};
use case_language::split_word;
use case_texts::always;
use http_head::{WireFault, read_head, read_request_head};
use message_body::{framing_of, request_framing_of};
use std::alloc::Global;

/// Puts the text.
pub fn put_framing(out: &mut Vec<u8>, framing: Framing) -> Result<(), Memory> {
    match framing {
        Framing::Empty => put_all(out, b"Empty"),
        Framing::Chunked => put_all(out, b"Chunked"),
        Framing::ToEnd => put_all(out, b"ToEnd"),
        Framing::Length(length) => {
            put_all(out, b"Length ")?;
            put_number(out, length)
        }
    }
}

/// What the text at the front tells, and what follows the space behind it.
pub fn split_framing(text: &[u8]) -> Option<(Framing, &[u8])> {
    let (word, rest) = split_word(text)?;
    match word {
        "Empty" => Some((Framing::Empty, rest)),
        "Chunked" => Some((Framing::Chunked, rest)),
        "ToEnd" => Some((Framing::ToEnd, rest)),
        "Length" => {
            let (length, rest) = split_word(rest)?;
            Some((Framing::Length(length.parse::<u64>().ok()?), rest))
        }
        _ => None,
    }
}

/// What the head of a response tells. The text is the method of the request that it answers, a space, and the head.
pub fn response_framing(alloc: Global, text: &[u8]) -> Result<Option<Vec<u8>>, Memory> {
    let Some((method, text)) = split_word(text) else {
        return Ok(None);
    };
    match read_head(alloc, text) {
        Ok(head) => always(framing_shown(alloc, framing_of(method == "HEAD", &head))),
        Err(WireFault::Memory) => Err(Memory),
        Err(_) => Ok(None),
    }
}

/// What the head of a request tells.
pub fn request_framing(alloc: Global, text: &[u8]) -> Result<Option<Vec<u8>>, Memory> {
    match read_request_head(alloc, text) {
        Ok(head) => always(framing_shown(alloc, request_framing_of(&head))),
        Err(WireFault::Memory) => Err(Memory),
        Err(_) => Ok(None),
    }
}

fn framing_shown(alloc: Global, answer: Result<Framing, WireFault>) -> Result<Vec<u8>, Memory> {
    match answer {
        Ok(framing) => {
            let mut out = Vec::new(alloc);
            put_framing(&mut out, framing)?;
            Ok(out)
        }
        Err(fault) => fault_shown(alloc, fault),
    }
}
