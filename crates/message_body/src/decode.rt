//! Decodes a chunked body in one pass.
ghost use Rattle.std.specs.Prelude.{◌≡◌, IfOk};
ghost use Rattle.message_body.specs.steps.Decoding.{IsDecoded, IsTrailerSeen};

use crate::split::{Split, split_chunk};
use capture::{Bytes, Memory};
use http_head::{find_section_end, is_section};
use std::alloc::Global;

/// What a text is that was decoded as a chunked body.
#[derive(Drop)]
pub enum Decoded {
    /// A whole body, with its data.
    Whole(Bytes),
    /// A body that was cut, with the data that came.
    Cut(Bytes),
    /// Neither.
    Neither,
}

/// What stands behind the size line of 0.
#[derive(Clone, Copy)]
pub enum TrailerSeen {
    /// One trailer section.
    Whole,
    /// The beginning of a section, which hasn't ended.
    Open,
    /// Something else.
    Wrong,
}

/// Joins the data of the chunks that the text is (RFC 9112, section 7.1.3). It has no limits.
pub fn decode(alloc: Global, wire: &[u8]) -> Result<Decoded, Memory>
    ensures { IfOk result (IsDecoded wire.now) }
{
    let mut payload = Vec::with_capacity(alloc, wire.len())?;
    let mut rest = wire;
    'chunks: loop {
        match split_chunk(rest) {
            Split::Piece(span) => {
                payload.extend_from_slice(span.of(rest))?;
                let (_, line_end) = rest.split_at(span.end);
                let (_, behind) = line_end.split_at(2);
                rest = behind;
            }
            Split::Last(start) => {
                let (_, trailer) = rest.split_at(start);
                match trailer_of(alloc, trailer)? {
                    TrailerSeen::Whole => return Ok(Decoded::Whole(Bytes::of(payload))),
                    TrailerSeen::Open => return Ok(Decoded::Cut(Bytes::of(payload))),
                    TrailerSeen::Wrong => return Ok(Decoded::Neither),
                }
            }
            Split::Cut(span) => {
                let come = span.of(rest);
                payload.extend_from_slice(come)?;
                return Ok(Decoded::Cut(Bytes::of(payload)));
            }
            Split::Nothing => return Ok(Decoded::Neither),
        }
    }
}

/// What the text behind the size line of 0 is.
pub fn trailer_of(alloc: Global, text: &[u8]) -> Result<TrailerSeen, Memory>
    ensures { IfOk result (IsTrailerSeen text.now) }
{
    match find_section_end(text) {
        None => Ok(TrailerSeen::Open),
        Some(end) => {
            if end != text.len() {
                return Ok(TrailerSeen::Wrong);
            }
            match is_section(alloc, text)? {
                true => Ok(TrailerSeen::Whole),
                false => Ok(TrailerSeen::Wrong),
            }
        }
    }
}
