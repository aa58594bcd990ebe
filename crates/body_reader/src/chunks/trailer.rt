//! Reads the trailer section of a chunked body.
ghost use Rattle.std.specs.Prelude.{◌≡◌, ◌+◌, ◌<◌, ◌≤◌, length, take, slice_index, IfOk};
ghost use Rattle.body_reader.specs.steps.ChunkPlaces.{StandsAt, InTrailerAt};
ghost use Rattle.body_reader.specs.steps.TrailerPlaces.{next_place};

use crate::chunks::place::ChunkPlace;
use crate::trailer::TrailerPlace;
use capture::{BODY_LIMIT, FIELD_LIMIT, HEAD_LIMIT, Memory, MessageFault};
use http_head::{count_line_feeds, is_section};
use std::alloc::Global;

/// Where the body stands behind the byte at this index, which stands in the trailer section.
pub fn step_trailer(
    alloc: Global,
    text: &[u8],
    at: usize,
    start: usize,
    place: TrailerPlace,
) -> Result<ChunkPlace, Memory>
    requires inside { at < length text.now }
    requires stands { InTrailerAt start place (take at text.now) }
    ensures { IfOk result (λ next. StandsAt next (take (at + 1) text.now)) }
{
    let come = at + 1 - start;
    if come > HEAD_LIMIT {
        return Ok(ChunkPlace::Refused(MessageFault::HeadTooLong));
    }
    let next = place.after(text[at]);
    if let TrailerPlace::Ended = next {
        return judge_trailer(alloc, text, at, start, place);
    }
    if at as u64 == BODY_LIMIT {
        return Ok(ChunkPlace::Refused(MessageFault::BodyTooLong));
    }
    Ok(ChunkPlace::Trailer(start, next))
}

/// Where the body stands behind the byte at this index, with which the trailer section ends.
fn judge_trailer(
    alloc: Global,
    text: &[u8],
    at: usize,
    start: usize,
    place: TrailerPlace,
) -> Result<ChunkPlace, Memory>
    requires inside { at < length text.now }
    requires stands { InTrailerAt start place (take at text.now) }
    requires ends { next_place place (slice_index text.now at) ≡ TrailerPlace.Ended }
    requires short { at + 1 ≤ start + HEAD_LIMIT }
    ensures { IfOk result (λ next. StandsAt next (take (at + 1) text.now)) }
{
    let (come, _) = text.split_at(at + 1);
    let (_, section) = come.split_at(start);
    if count_line_feeds(section) > FIELD_LIMIT + 1 {
        return Ok(ChunkPlace::Refused(MessageFault::HeadTooLong));
    }
    if at as u64 == BODY_LIMIT {
        return Ok(ChunkPlace::Refused(MessageFault::BodyTooLong));
    }
    match is_section(alloc, section)? {
        true => Ok(ChunkPlace::Whole),
        false => Ok(ChunkPlace::Refused(MessageFault::Malformed)),
    }
}
