//! How long a message's body is, and why no message is there.
use thiserror::Error;

/// What tells a body's length (RFC 9112, section 6.3).
#[derive(Clone, Copy)]
pub enum Framing {
    /// There is no body.
    Empty,
    /// So many bytes.
    Length(u64),
    /// Chunks, up to one of size 0 and a trailer section (RFC 9112, section 7.1).
    Chunked,
    /// All bytes until the connection ends.
    ToEnd,
}

/// Why a head tells no framing.
#[derive(Clone, Copy, Debug, Error)]
pub enum FramingFault {
    /// The fields contradict one another or the version, or a length is no number.
    #[error("the fields tell no length of a body")]
    Malformed,
    /// The transfer coding isn't `chunked` alone.
    #[error("the transfer coding isn't `chunked` alone")]
    CodingRefused,
}

/// Why no message can stand at the front of a stream.
#[derive(Clone, Copy, Debug, Error)]
pub enum MessageFault {
    /// A head, a size line, the end of a chunk or a trailer isn't one of HTTP/1.1, or a head tells no framing.
    #[error("no message of HTTP/1.1")]
    Malformed,
    /// The head, or the trailer section, passes a limit.
    #[error("a head that is too long")]
    HeadTooLong,
    /// The body passes its limit, or is sure to.
    #[error("a body that is too long")]
    BodyTooLong,
    /// The transfer coding isn't `chunked` alone.
    #[error("the transfer coding isn't `chunked` alone")]
    CodingRefused,
}
