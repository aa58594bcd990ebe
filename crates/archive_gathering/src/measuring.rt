//! How long the payload of a response is, by its head.
ghost use Rattle.std.specs.Prelude.{ℕ, List};
ghost use Rattle.http_head.specs.Heads.{HoldsResponseParts};
ghost use Rattle.httparse.specs.Grammar as grammar;
ghost use Rattle.archive_gathering.specs.Measuring.{TellsLength};

use archive_volumes::is_head;
use capture::{Framing, Text};
use http_head::{ResponseHead, WireFault};
use message_body::framing_of;

/// What a head tells of the length of a payload.
#[derive(Clone, Copy)]
pub(crate) enum Told {
    /// Nothing.
    Any,
    /// So many bytes.
    Exactly(u64),
    /// More bytes than a length of 64 bits says.
    TooMany,
}

/// What the head of a response to a request of this method tells of its payload's length (RFC 9112, section 6.3).
pub(crate) fn told_length(method: &Text, head: &ResponseHead) -> Told
    ensures { (text : List ℕ) (h : grammar.ResponseHead) → HoldsResponseParts text h head.now → TellsLength method.now h result }
{
    match framing_of(is_head(method.as_slice()), head) {
        Ok(Framing::Length(n)) => Told::Exactly(n),
        Ok(Framing::Empty) => Told::Any,
        Ok(Framing::Chunked) => Told::Any,
        Ok(Framing::ToEnd) => Told::Any,
        Err(WireFault::BodyTooLong) => Told::TooMany,
        Err(_) => Told::Any,
    }
}
