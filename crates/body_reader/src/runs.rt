//! Runs of bytes inside a line of a chunked body. None of them is looked at for itself, so they are passed at once.
ghost use Rattle.std.specs.Prelude.{◌≡◌, ◌≢◌, ◌<◌, ◌≤◌, ℕ, length, take, slice_index};
ghost use Rattle.httparse.specs.Ascii.{line_feed};
ghost use Rattle.body_reader.specs.steps.ChunkPlaces.{InLineAt, InTrailerAt};

use crate::trailer::TrailerPlace;
use capture::{BODY_LIMIT, HEAD_LIMIT, SIZE_LINE_LIMIT};
use memchr::memchr;

/// Up to where a size line goes on that begins behind so many bytes and has come up to this index: to its LF, to the first
/// byte that a limit is due at, or to the end of what came.
pub fn skip_size_line(text: &[u8], at: usize, start: usize) -> usize
    requires inside { at < length text.now }
    requires stands { InLineAt start (take at text.now) }
    ensures low { at ≤ result }
    ensures fits { result ≤ length text.now }
    ensures stands { InLineAt start (take result text.now) }
{
    let most = text
        .len()
        .min(start + SIZE_LINE_LIMIT)
        .min(BODY_LIMIT as usize);
    let (within, _) = text.split_at(most);
    let (_, rest) = within.split_at(at);
    at + run_len(rest)
}

/// The same of a line of a trailer section that begins behind so many bytes.
pub fn skip_trailer_line(text: &[u8], at: usize, start: usize) -> usize
    requires inside { at < length text.now }
    requires stands { InTrailerAt start TrailerPlace.InLine (take at text.now) }
    ensures low { at ≤ result }
    ensures fits { result ≤ length text.now }
    ensures stands { InTrailerAt start TrailerPlace.InLine (take result text.now) }
{
    let most = text.len().min(start + HEAD_LIMIT).min(BODY_LIMIT as usize);
    let (within, _) = text.split_at(most);
    let (_, rest) = within.split_at(at);
    at + run_len(rest)
}

/// How many bytes stand before the first LF.
fn run_len(text: &[u8]) -> usize
    ensures fits { result ≤ length text.now }
    ensures none { (k : ℕ) → k < result → slice_index text.now k ≢ line_feed }
{
    match memchr(b'\n', text) {
        Some(at) => at,
        None => text.len(),
    }
}
