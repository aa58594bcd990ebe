//! Finds the end of a head.
ghost use Rattle.std.specs.Prelude.{◌≡◌, ◌≢◌, ◌-◌, ◌<◌, ◌≤◌, length, take};
ghost use Rattle.capture.specs.Head.{head_end};
ghost use Rattle.http_head.specs.steps.HeadSeek.{next_seek, seek_after};

use memchr::memchr;

/// Where the stream so far stands.
#[derive(Clone, Copy, PartialEq, Eq)]
pub enum Seek {
    /// Nothing but line ends came.
    Before,
    /// Line ends came, and a CR that may begin one more.
    BeforeCr,
    /// Inside a line of the head.
    Line,
    /// Behind the LF of a line of the head.
    AfterLf,
    /// Behind such a LF and a CR.
    AfterLfCr,
    /// The head has ended.
    Ended,
}

/// How much of a piece was looked at, and where the stream stands then.
#[derive(Clone, Copy)]
pub struct Sought {
    /// How many bytes, from the piece's front.
    pub used: usize,
    /// Where the stream stands behind them.
    pub seek: Seek,
}

/// Where the stream stands after one more byte.
fn next_of(seek: Seek, byte: u8) -> Seek
    ensures { result ≡ next_seek seek byte }
{
    match (seek, byte) {
        (Seek::Before | Seek::BeforeCr, b'\n') => Seek::Before,
        (Seek::Before, b'\r') => Seek::BeforeCr,
        (Seek::Line, b'\n') => Seek::AfterLf,
        (Seek::AfterLf | Seek::AfterLfCr, b'\n') => Seek::Ended,
        (Seek::AfterLf, b'\r') => Seek::AfterLfCr,
        (Seek::Ended, _) => Seek::Ended,
        _ => Seek::Line,
    }
}

/// Goes from inside a line to behind its LF, or to the end of what has come.
fn seek_line_end(rest: &[u8]) -> Sought
    ensures fits { result.used ≤ length rest.now }
    ensures some { 0 < length rest.now → 0 < result.used }
    ensures seek { result.seek ≡ seek_after Seek.Line (take result.used rest.now) }
    ensures going { result.seek ≢ Seek.Ended }
{
    match memchr(b'\n', rest) {
        Some(at) => Sought {
            used: at + 1,
            seek: Seek::AfterLf,
        },
        None => Sought {
            used: rest.len(),
            seek: Seek::Line,
        },
    }
}

/// Goes on by a byte, or through the rest of a line.
fn seek_on(seek: Seek, rest: &[u8]) -> Sought
    requires going { seek ≢ Seek.Ended }
    requires more { 0 < length rest.now }
    ensures fits { result.used ≤ length rest.now }
    ensures some { 0 < result.used }
    ensures seek { result.seek ≡ seek_after seek (take result.used rest.now) }
    ensures soonest { seek_after seek (take (result.used - 1) rest.now) ≢ Seek.Ended }
{
    match seek {
        Seek::Line => seek_line_end(rest),
        _ => Sought {
            used: 1,
            seek: next_of(seek, rest[0]),
        },
    }
}

/// Looks at a piece up to the end of the head.
pub fn seek_end(start: Seek, piece: &[u8]) -> Sought
    requires { start ≢ Seek.Ended }
    ensures fits { result.used ≤ length piece.now }
    ensures some { 0 < length piece.now → 0 < result.used }
    ensures seek { result.seek ≡ seek_after start (take result.used piece.now) }
    ensures soonest { seek_after start (take (result.used - 1) piece.now) ≢ Seek.Ended }
    ensures whole { result.seek ≢ Seek.Ended → result.used ≡ length piece.now }
{
    let mut used = 0;
    let mut seek = start;
    'seeking: while used < piece.len() {
        let (_, rest) = piece.split_at(used);
        let found = seek_on(seek, rest);
        used += found.used;
        seek = found.seek;
        if seek == Seek::Ended {
            return Sought { used, seek };
        }
    }
    Sought { used, seek }
}

/// Where the head of a stream ends, if it does: behind the line ends that are skipped, up to the first empty line
/// (RFC 9112, sections 2.1 and 2.2). There is no limit.
pub fn find_head_end(stream: &[u8]) -> Option<usize>
    ensures { result ≡ head_end stream.now }
{
    let found = seek_end(Seek::Before, stream);
    match found.seek {
        Seek::Ended => Some(found.used),
        _ => None,
    }
}
