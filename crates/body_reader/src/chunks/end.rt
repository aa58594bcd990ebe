//! Reads a chunk's data, and the line end behind them.
ghost use Rattle.std.specs.Prelude.{◌≡◌, ◌+◌, ◌<◌, ◌≤◌, [], ◌∷◌, length, take};
ghost use Rattle.httparse.specs.Ascii.{carriage_return};
ghost use Rattle.body_reader.specs.steps.ChunkPlaces.{StandsAt, IsGoing, InDataAt, InLineEndAt};

use crate::chunks::place::{ChunkPlace, ChunkStep};
use capture::{BODY_LIMIT, MessageFault};

/// Where the body stands behind the byte at this index, which stands behind a chunk's data.
pub fn step_line_end(text: &[u8], at: usize) -> ChunkPlace
    requires inside { at < length text.now }
    requires stands { InLineEndAt [] (take at text.now) }
    ensures { StandsAt result (take (at + 1) text.now) }
{
    if at as u64 == BODY_LIMIT {
        return ChunkPlace::Refused(MessageFault::BodyTooLong);
    }
    if text[at] != b'\r' {
        return ChunkPlace::Refused(MessageFault::Malformed);
    }
    ChunkPlace::LineEndCr
}

/// Where the body stands behind the byte at this index, which stands behind the CR that follows a chunk's data.
pub fn step_line_end_cr(text: &[u8], at: usize) -> ChunkPlace
    requires inside { at < length text.now }
    requires stands { InLineEndAt (carriage_return ∷ []) (take at text.now) }
    ensures { StandsAt result (take (at + 1) text.now) }
{
    if at as u64 == BODY_LIMIT {
        return ChunkPlace::Refused(MessageFault::BodyTooLong);
    }
    if text[at] != b'\n' {
        return ChunkPlace::Refused(MessageFault::Malformed);
    }
    ChunkPlace::Line(at + 1)
}

/// Takes data, of which so many bytes are to come, from this index on.
pub fn step_data(text: &[u8], at: usize, left: u64) -> ChunkStep
    requires inside { at < length text.now }
    requires stands { InDataAt left (take at text.now) }
    ensures stands { StandsAt result.place (take result.at text.now) }
    ensures going { IsGoing result.place }
    ensures further { at < result.at }
    ensures fits { result.at ≤ length text.now }
{
    let rest = (text.len() - at) as u64;
    if rest < left {
        return ChunkStep {
            place: ChunkPlace::Data(left - rest),
            at: text.len(),
        };
    }
    ChunkStep {
        place: ChunkPlace::LineEnd,
        at: at + left as usize,
    }
}
