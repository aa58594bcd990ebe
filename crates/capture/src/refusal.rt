//! Why a request gets no response of an origin and no memento.
use crate::Digest;

/// A refusal, with what its text names. A fault of the outside is one too; want of memory isn't.
#[derive(Clone, Copy)]
pub enum Refusal {
    /// The request's head or body isn't one of HTTP/1.1.
    Malformed,
    /// The target is no URL that is served.
    TargetRefused,
    /// The time in a replay address names no moment.
    BadTime,
    /// The field Accept-Datetime names no moment (RFC 7089, section 2.1.1).
    BadAcceptDatetime,
    /// The text behind `/web/cdx?` is no query.
    BadQuery,
    /// The address is none of the archive's forms.
    NotAForm,
    /// Nothing was captured of that URL.
    NoCapture,
    /// There is no capture of that number.
    NoSuch {
        number: u32,
        count: u32,
    },
    /// The archive's own addresses answer GET and HEAD alone.
    MethodRefused,
    /// The request's body passes its limit.
    BodyTooLong,
    /// The request's head, or its trailer section, passes a limit.
    HeadTooLong,
    /// The clock's answer, in milliseconds since 1970, is past the year 9999.
    ClockRange {
        now: u64,
    },
    /// The method CONNECT isn't served.
    ConnectRefused,
    /// The target is an https URL.
    SecureRefused,
    /// The transfer coding isn't `chunked` alone.
    CodingRefused,
    /// The origin couldn't be dialed.
    DialFault,
    /// The link to the origin failed.
    OriginFault,
    /// The origin ended before the head of its final response was whole.
    OriginEnded,
    /// The origin's response isn't one of HTTP/1.1, or has a transfer coding that isn't `chunked` alone.
    OriginMalformed,
    /// The origin's response passes a limit.
    OriginTooLong,
    /// The origin sent more interim responses than are dropped.
    TooManyInterim,
    /// The archive holds as many captures as it may.
    Full {
        count: u32,
        limit: u32,
    },
    /// The disk failed.
    DiskFault,
    /// What the disk gives of a capture has another digest than the one kept, or doesn't decode.
    Damaged {
        number: u32,
        kept: Digest,
        found: Option<Digest>,
    },
}
