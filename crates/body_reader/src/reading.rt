//! What a reader of a body does with the bytes that come.

use crate::chunks::place::ChunkPlace;

/// How a body is read, by what tells its length.
#[derive(Clone, Copy)]
pub enum Reading {
    /// There is no body.
    Empty,
    /// So many bytes.
    Length(u64),
    /// Chunks, which stand at this place.
    Chunked(ChunkPlace),
    /// All bytes until the connection ends.
    ToEnd,
}
