//! Splits a chunked body chunk by chunk.
ghost use Rattle.httparse.specs.Grammar.{ChunkLine, HasNoChunkLine};
ghost use Rattle.httparse.specs.Spans.{IsChunkLineAt};
ghost use Rattle.message_body.specs.steps.Splits.{IsSplit, HoldsData, IsLineEndSeen};

use httparse::spans::Span;
use httparse::{Status, parse_chunk_size};
use memchr::memchr;

/// What stands at the front of a text that is to be a chunked body, or what is left of one.
#[derive(Clone, Copy)]
pub enum Split {
    /// A chunk. It has this data, and ends two bytes behind it.
    Piece(Span),
    /// A size line of 0, which ends there.
    Last(usize),
    /// The beginning of a size line or of a chunk, with which the text ends. It has this data.
    Cut(Span),
    /// Nothing of a chunked body.
    Nothing,
}

/// What stands behind a chunk's data.
#[derive(Clone, Copy)]
enum LineEndSeen {
    /// CR LF.
    Whole,
    /// Nothing, or CR alone, with which the text ends.
    Open,
    /// Something else.
    Wrong,
}

/// Splits a chunk, or a line of size 0, off the front (RFC 9112, section 7.1).
pub fn split_chunk(text: &[u8]) -> Split
    ensures { IsSplit text.now result }
{
    match parse_chunk_size(text) {
        Ok(Status::Complete((start, size))) => split_data(text, start, size),
        Ok(Status::Partial) => split_open_line(text),
        Err(_) => split_open_line(text),
    }
}

/// Splits a text that begins with no whole size line.
fn split_open_line(text: &[u8]) -> Split
    requires { HasNoChunkLine text.now }
    ensures { IsSplit text.now result }
{
    match memchr(b'\n', text) {
        None => Split::Cut(Span {
            start: text.len(),
            end: text.len(),
        }),
        Some(_) => Split::Nothing,
    }
}

/// Splits a text that begins with a size line, which ends at start.
fn split_data(text: &[u8], start: usize, size: u64) -> Split
    requires { (line : ChunkLine) × IsChunkLineAt text.now start size line }
    ensures { IsSplit text.now result }
{
    if size == 0 {
        return Split::Last(start);
    }
    let come = text.len() - start;
    if (come as u64) < size {
        return Split::Cut(Span {
            start,
            end: text.len(),
        });
    }
    split_line_end(
        text,
        Span {
            start,
            end: start + size as usize,
        },
    )
}

/// Splits a text that begins with a size line and its data.
fn split_line_end(text: &[u8], chunk_data: Span) -> Split
    requires { HoldsData text.now chunk_data }
    ensures { IsSplit text.now result }
{
    let (_, behind) = text.split_at(chunk_data.end);
    match line_end_of(behind) {
        LineEndSeen::Whole => Split::Piece(chunk_data),
        LineEndSeen::Open => Split::Cut(chunk_data),
        LineEndSeen::Wrong => Split::Nothing,
    }
}

/// Whether a CR LF stands at the front, may stand there once more came, or can't.
fn line_end_of(bytes: &[u8]) -> LineEndSeen
    ensures { IsLineEndSeen bytes.now result }
{
    match bytes {
        [] => LineEndSeen::Open,
        [b'\r'] => LineEndSeen::Open,
        [b'\r', b'\n', ..] => LineEndSeen::Whole,
        _ => LineEndSeen::Wrong,
    }
}
