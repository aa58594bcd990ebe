//! Reads a body from the pieces of a stream.
ghost use Rattle.std.specs.Prelude.{◌≡◌, ◌≤◌, [], false, length, take, IsTrue, IfOk, OnErr};
ghost use Rattle.body_reader.specs.BodySoFar.{IsShortFraming, IsOpenBody, EndsWhole, EndsCut, ReachesBody, IsSoonest};
ghost use Rattle.body_reader.specs.BodyStream.{further_on};

use crate::chunks::place::ChunkPlace;
use crate::fed::{BodyFed, BodyProgress};
use crate::feeding::{feed_chunks, feed_length, feed_to_end, progress_of};
use crate::reading::Reading;
use capture::{Bytes, Framing, Memory};
use std::alloc::Global;
use std::marker::Model;

/// How many bytes of a length that was told are reserved before any has come, at most.
const FIRST_RESERVE: u64 = 1_048_576;

/// Collects a body behind its head (RFC 9112, sections 6 and 7.1). A contract sees the framing and the bytes of the
/// body that came.
#[derive(Drop)]
pub struct BodyReader {
    reading: Reading,
    wire: Vec<u8>,
}

impl Model for BodyReader {
    ghost use Rattle.body_reader.specs.BodyStream.{BodyStream};

    ghost Value = { BodyStream };

    ghost use Rattle.body_reader.specs.Readings.{framing_of, IsReading};

    ghost view = { λ r. record { framing = framing_of r.reading; stream = r.wire.items } };

    ghost invariant = { λ r. IsReading r.reading r.wire.items };
}

impl BodyReader {
    /// A reader at the start of a body, which its head tells to be within the limit. The bytes of a length that was
    /// told are reserved at once up to 1 MiB; further ones as bytes come, so that a length alone holds no memory.
    pub fn new(alloc: Global, framing: Framing) -> Result<BodyReader, Memory>
        requires { IsShortFraming framing }
        ensures { IfOk result (λ reader. reader ≡ record { framing = framing; stream = [] }) }
    {
        match framing {
            Framing::Empty => Ok(BodyReader {
                reading: Reading::Empty,
                wire: Vec::new(alloc),
            }),
            Framing::Length(length) => Ok(BodyReader {
                reading: Reading::Length(length),
                wire: Vec::with_capacity(alloc, length.min(FIRST_RESERVE) as usize)?,
            }),
            Framing::Chunked => Ok(BodyReader {
                reading: Reading::Chunked(ChunkPlace::Line(0)),
                wire: Vec::new(alloc),
            }),
            Framing::ToEnd => Ok(BodyReader {
                reading: Reading::ToEnd,
                wire: Vec::new(alloc),
            }),
        }
    }

    /// Takes bytes from the front of the piece, up to the body's end or to the first byte that shows a fault. A body
    /// without a byte is whole at the first call, which may be given an empty piece. Behind a body's end, and behind a
    /// fault, each further call takes nothing and answers the same. Where there is no memory it takes nothing.
    pub fn feed(&mut self, piece: &[u8]) -> Result<BodyFed, Memory>
        ensures fits { IfOk result (λ fed. fed.used ≤ length piece.now) }
        ensures takes { IfOk result (λ fed. self.new ≡ further_on self.old (take fed.used piece.now)) }
        ensures whole { IfOk result (λ fed. fed.progress ≡ BodyProgress.More → fed.used ≡ length piece.now) }
        ensures progress { IfOk result (λ fed. ReachesBody fed.progress self.new) }
        ensures soonest { IfOk result (λ fed. IsSoonest self.old piece.now fed) }
        ensures err { OnErr result (self.new ≡ self.old) }
    {
        match self.reading {
            Reading::Empty => Ok(BodyFed {
                used: 0,
                progress: BodyProgress::Whole,
            }),
            Reading::Length(length) => feed_length(&mut self.wire, length, piece),
            Reading::Chunked(place) => {
                let fed = feed_chunks(&mut self.wire, place, piece)?;
                self.reading = Reading::Chunked(fed.place);
                Ok(BodyFed {
                    used: fed.at,
                    progress: progress_of(fed.place),
                })
            }
            Reading::ToEnd => feed_to_end(&mut self.wire, piece),
        }
    }

    /// Whether the body is whole now that the stream has ended. Else it was cut.
    pub fn ends_whole(&self) -> bool
        requires { IsOpenBody self.now }
        ensures whole { IsTrue result → EndsWhole self.now }
        ensures cut { result ≡ false → EndsCut self.now }
    {
        matches!(self.reading, Reading::ToEnd)
    }

    /// What tells the body's length.
    pub fn framing(&self) -> Framing
        ensures { result ≡ self.now.framing }
    {
        match self.reading {
            Reading::Empty => Framing::Empty,
            Reading::Length(length) => Framing::Length(length),
            Reading::Chunked(_) => Framing::Chunked,
            Reading::ToEnd => Framing::ToEnd,
        }
    }

    /// The bytes that came, as they stood on the wire. Takes no memory.
    pub fn into_wire(self) -> Bytes
        ensures { result ≡ self.stream }
    {
        let BodyReader { reading: _, wire } = self;
        Bytes::of(wire)
    }
}
