//! Where a chunked body stands that is read piece by piece.

use crate::trailer::TrailerPlace;
use capture::MessageFault;

/// Where a chunked body so far stands (RFC 9112, section 7.1).
#[derive(Clone, Copy)]
pub enum ChunkPlace {
    /// Inside a size line, which begins behind so many bytes.
    Line(usize),
    /// Inside a chunk's data, of which so many bytes are to come.
    Data(u64),
    /// Behind a chunk's data.
    LineEnd,
    /// Behind a chunk's data and the CR.
    LineEndCr,
    /// Inside the trailer section, which begins behind so many bytes and stands at this place.
    Trailer(usize, TrailerPlace),
    /// The body is whole.
    Whole,
    /// The last byte shows this fault.
    Refused(MessageFault),
}

/// How far a text was read.
#[derive(Clone, Copy)]
pub struct ChunkStep {
    /// Where the body stands then.
    pub place: ChunkPlace,
    /// How many bytes of the text were read.
    pub at: usize,
}
