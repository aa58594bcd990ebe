//! Heads in parts, each part with memory of its own.
ghost use Rattle.std.specs.Prelude.{◌≡◌};

use capture::{Bytes, Framing, Items, Memory, Text};
use thiserror::Error;

/// The minor version of HTTP/1.
#[derive(Clone, Copy)]
pub enum Version {
    /// HTTP/1.0
    Http10,
    /// HTTP/1.1
    Http11,
}

/// A field line (RFC 9112, section 5).
#[derive(Drop)]
pub struct Field {
    /// The name, in the case in which it came.
    pub name: Text,
    /// The value without the blanks around it.
    pub value: Bytes,
}

/// The head of a request (RFC 9112, section 3).
#[derive(Drop)]
pub struct RequestHead {
    /// The method.
    pub method: Text,
    /// The request target.
    pub target: Bytes,
    /// The version in which it came.
    pub version: Version,
    /// The field lines, in order.
    pub fields: Items<Field>,
    /// The head as it came, its empty line with it.
    pub text: Bytes,
}

/// What of a request's head tells its method, and whether a body may stand behind it.
#[derive(Drop)]
pub struct RequestOutline {
    /// The method.
    pub method: Text,
    /// Whether a field Transfer-Encoding or Content-Length is there. Without one no body follows (RFC 9112, section 6.3).
    pub is_framed: bool,
}

/// The head of a response (RFC 9112, section 4).
#[derive(Drop)]
pub struct ResponseHead {
    /// The version in which it came.
    pub version: Version,
    /// The status code.
    pub status: u16,
    /// The reason phrase, which may be empty.
    pub reason: Bytes,
    /// The field lines, in order.
    pub fields: Items<Field>,
    /// The head as it came, its empty line with it.
    pub text: Bytes,
}

/// A whole request.
#[derive(Drop)]
pub struct RequestMessage {
    pub head: RequestHead,
    /// What told the body's length.
    pub framing: Framing,
    /// The body without its transfer coding.
    pub payload: Bytes,
}

/// A response, whole or cut.
#[derive(Drop)]
pub struct Received {
    pub head: ResponseHead,
    /// What told the body's length.
    pub framing: Framing,
    /// The body as it stood on the wire.
    pub wire: Bytes,
    /// Whether the origin ended inside the body, so that `wire` is only as much as came.
    pub cut: bool,
}

/// Why bytes are no message.
#[derive(Clone, Copy, Debug, Error)]
pub enum WireFault {
    /// They aren't in the grammar of HTTP/1.1.
    #[error("not in the grammar of HTTP/1.1")]
    Malformed,
    /// A head or a trailer section passes its limit.
    #[error("a head or a trailer section is too long")]
    HeadTooLong,
    /// A body passes its limit.
    #[error("a body is too long")]
    BodyTooLong,
    /// A transfer coding isn't `chunked` alone.
    #[error("a transfer coding that isn't `chunked` alone")]
    CodingRefused,
    /// They end inside a message.
    #[error("the end stands inside a message")]
    EndedEarly,
    /// There was no memory.
    #[error("no memory")]
    Memory,
}

impl From<Memory> for WireFault {
    ghost use Rattle.http_head.specs.declared.head.WireFault.TheVariants.{Memory as OutOfMemory};

    ghost from_gives = { λ _ fault. fault ≡ OutOfMemory };

    fn from(_error: Memory) -> WireFault {
        WireFault::Memory
    }
}
