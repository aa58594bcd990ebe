//! Reads the size line of a chunk.
ghost use Rattle.std.specs.Prelude.{◌≡◌, ◌+◌, ◌<◌, length, take, slice_index};
ghost use Rattle.httparse.specs.Ascii.{line_feed};
ghost use Rattle.body_reader.specs.steps.ChunkPlaces.{StandsAt, InLineAt};

use crate::chunks::place::ChunkPlace;
use crate::trailer::TrailerPlace;
use capture::{BODY_LIMIT, MessageFault, SIZE_LINE_LIMIT};
use httparse::{Status, parse_chunk_size};

/// Where the body stands behind the byte at this index, which stands in a size line.
pub fn step_line(text: &[u8], at: usize, start: usize) -> ChunkPlace
    requires inside { at < length text.now }
    requires stands { InLineAt start (take at text.now) }
    ensures { StandsAt result (take (at + 1) text.now) }
{
    if at as u64 == BODY_LIMIT {
        return ChunkPlace::Refused(MessageFault::BodyTooLong);
    }
    let come = at - start;
    if come == SIZE_LINE_LIMIT {
        return ChunkPlace::Refused(MessageFault::Malformed);
    }
    if text[at] != b'\n' {
        return ChunkPlace::Line(start);
    }
    judge_line(text, at, start)
}

/// Where the body stands behind the LF at this index, with which a size line ends.
fn judge_line(text: &[u8], at: usize, start: usize) -> ChunkPlace
    requires inside { at < length text.now }
    requires stands { InLineAt start (take at text.now) }
    requires ends { slice_index text.now at ≡ line_feed }
    requires room { at < BODY_LIMIT }
    requires short { at < start + SIZE_LINE_LIMIT }
    ensures { StandsAt result (take (at + 1) text.now) }
{
    let (come, _) = text.split_at(at + 1);
    let (_, line) = come.split_at(start);
    match parse_chunk_size(line) {
        Ok(Status::Complete((len, size))) => {
            if len != line.len() {
                return ChunkPlace::Refused(MessageFault::Malformed);
            }
            if BODY_LIMIT - at as u64 <= size {
                return ChunkPlace::Refused(MessageFault::BodyTooLong);
            }
            if size == 0 {
                return ChunkPlace::Trailer(at + 1, TrailerPlace::LineStart);
            }
            ChunkPlace::Data(size)
        }
        Ok(Status::Partial) => ChunkPlace::Refused(MessageFault::Malformed),
        Err(_) => ChunkPlace::Refused(MessageFault::Malformed),
    }
}
