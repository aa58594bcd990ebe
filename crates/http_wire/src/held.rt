//! A body that is read.
ghost use Rattle.std.specs.Prelude.{◌≡◌, [], false, length, IfOk, IfErr};
ghost use Rattle.capture.specs.Payload.{IsPayload};
ghost use Rattle.body_reader.specs.BodySoFar.{IsOpenBody, IsShortFraming};
ghost use Rattle.http_wire.specs.HeldBodies.{IsBegun, TakesBody, TakesSomeBody, Holds};
ghost use Rattle.http_wire.specs.Reading.{fault_in};

use crate::progress::{Fed, Progress};
use body_reader::{BodyProgress, BodyReader};
use capture::{Bytes, Framing, Memory, MessageFault};
use http_head::WireFault;
use message_body::payload_of;
use std::alloc::Global;

/// A body that has come to its end.
#[derive(Drop)]
pub struct ClosedBody {
    /// What told its length.
    pub framing: Framing,
    /// The body as it stood on the wire.
    pub wire: Bytes,
    /// Whether the stream ended inside it.
    pub cut: bool,
}

/// What came of a body.
#[derive(Drop)]
pub enum Held {
    /// Nothing: its head is to come.
    Before,
    /// More of it is to come.
    Open(BodyReader),
    /// All of it that will come.
    Closed(ClosedBody),
}

/// What feeding a body leaves, and what is answered.
#[derive(Drop)]
pub struct BodyStep {
    pub held: Held,
    pub came: Result<Fed, WireFault>,
}

/// The fault of a message, among those of a reader.
pub fn wire_fault(fault: MessageFault) -> WireFault
    ensures { result ≡ fault_in fault }
{
    match fault {
        MessageFault::Malformed => WireFault::Malformed,
        MessageFault::HeadTooLong => WireFault::HeadTooLong,
        MessageFault::BodyTooLong => WireFault::BodyTooLong,
        MessageFault::CodingRefused => WireFault::CodingRefused,
    }
}

/// A body of which nothing has come. One without a byte has come to its end.
pub fn begin_body(alloc: Global, framing: Framing) -> Result<Held, Memory>
    requires { IsShortFraming framing }
    ensures { IfOk result (IsBegun framing) }
{
    match framing {
        Framing::Empty => Ok(without_bytes(alloc, framing)),
        Framing::Length(0) => Ok(without_bytes(alloc, framing)),
        Framing::Length(_) => open_body(alloc, framing),
        Framing::Chunked => open_body(alloc, framing),
        Framing::ToEnd => open_body(alloc, framing),
    }
}

/// A body of which bytes are to come.
fn open_body(alloc: Global, framing: Framing) -> Result<Held, Memory>
    requires { IsShortFraming framing }
    ensures { IfOk result (λ held. held ≡ Held.Open (record { framing = framing; stream = [] })) }
{
    Ok(Held::Open(BodyReader::new(alloc, framing)?))
}

/// A body without a byte. Takes no memory.
fn without_bytes(alloc: Global, framing: Framing) -> Held
    ensures { result ≡ Held.Closed (record { framing = framing; wire = []; cut = false }) }
{
    Held::Closed(ClosedBody {
        framing,
        wire: Bytes::of(Vec::new(alloc)),
        cut: false,
    })
}

/// Feeds a body of which more is to come.
pub fn feed_body(mut body: BodyReader, piece: &[u8]) -> BodyStep
    requires { IsOpenBody body }
    ensures takes { IfOk result.came (λ fed. TakesBody body piece.now fed.used result.held) }
    ensures takes_some { IfErr result.came (λ fault. TakesSomeBody body piece.now result.held) }
    ensures all { IfOk result.came (λ fed. fed.progress ≡ Progress.More → fed.used ≡ length piece.now) }
    ensures holds { Holds body.framing result.came result.held }
{
    match body.feed(piece) {
        Ok(fed) => match fed.progress {
            BodyProgress::More => BodyStep {
                held: Held::Open(body),
                came: Ok(Fed {
                    used: fed.used,
                    progress: Progress::More,
                }),
            },
            BodyProgress::Whole => BodyStep {
                held: close_body(body, false),
                came: Ok(Fed {
                    used: fed.used,
                    progress: Progress::Whole,
                }),
            },
            BodyProgress::Refused(fault) => BodyStep {
                held: Held::Open(body),
                came: Err(wire_fault(fault)),
            },
        },
        Err(Memory) => BodyStep {
            held: Held::Open(body),
            came: Err(WireFault::Memory),
        },
    }
}

/// A body of which nothing more will come, whole or cut. Takes no memory.
pub fn close_body(body: BodyReader, cut: bool) -> Held
    ensures { result ≡ Held.Closed (record { framing = body.framing; wire = body.stream; cut = cut }) }
{
    let framing = body.framing();
    Held::Closed(ClosedBody {
        framing,
        wire: body.into_wire(),
        cut,
    })
}

/// The payload of a whole body, or the body itself where there is no memory. A wire that isn't chunked is moved, where
/// `payload_in` would lend it and it had to be copied.
pub fn payload_of_closed(alloc: Global, closed: ClosedBody) -> Result<Bytes, ClosedBody>
    ensures ok { IfOk result (λ payload. IsPayload false closed.framing closed.wire payload) }
    ensures err { IfErr result (λ same. same ≡ closed) }
{
    match closed.framing {
        Framing::Chunked => match payload_of(alloc, Framing::Chunked, closed.wire.as_slice()) {
            Ok(payload) => Ok(payload),
            // A whole body has a payload, so it is memory that is wanting.
            Err(_) => Err(closed),
        },
        Framing::Empty => Ok(into_wire(closed)),
        Framing::Length(_) => Ok(into_wire(closed)),
        Framing::ToEnd => Ok(into_wire(closed)),
    }
}

/// The body as it stood on the wire.
fn into_wire(closed: ClosedBody) -> Bytes
    ensures { result ≡ closed.wire }
{
    let ClosedBody {
        framing: _,
        wire,
        cut: _,
    } = closed;
    wire
}
