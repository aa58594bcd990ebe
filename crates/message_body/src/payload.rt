//! The payload of a body: the body without its transfer coding.
ghost use Rattle.std.specs.Prelude.{◌≡◌, ℕ, List, true, false, IfOk, IsErrOf};
ghost use Rattle.capture.specs.Body.{IsBody, IsCutWire, IsWire};
ghost use Rattle.capture.specs.Payload.{IsPayload, IsJoined, IsCutJoined};

use crate::decode::{Decoded, decode};
use crate::lent::Payload;
use crate::limits::is_within_limits;
use capture::{BODY_LIMIT, Bytes, Framing, Memory};
use std::alloc::{AllocError, Global};
use thiserror::Error;

/// Why there is no payload.
#[derive(Clone, Copy, Debug, Error)]
pub enum PayloadFault {
    /// The wire isn't a body of its framing, or one that was cut, whichever was asked for.
    #[error("not a body of its framing")]
    Malformed,
    /// There was no memory.
    #[error("no memory")]
    Memory,
}

impl From<Memory> for PayloadFault {
    ghost use Rattle.message_body.specs.declared.payload.PayloadFault.TheVariants.{Memory as OutOfMemory};

    ghost from_gives = { λ _ fault. fault ≡ OutOfMemory };

    fn from(_error: Memory) -> PayloadFault {
        PayloadFault::Memory
    }
}

impl From<AllocError> for PayloadFault {
    ghost use Rattle.message_body.specs.declared.payload.PayloadFault.TheVariants.{Memory as OutOfMemory};

    ghost from_gives = { λ _ fault. fault ≡ OutOfMemory };

    fn from(_error: AllocError) -> PayloadFault {
        PayloadFault::Memory
    }
}

/// The payload of a body (RFC 9112, sections 6 and 7.1), which isn't asked for its length. It has no limits. Malformed:
/// the framing is Chunked and the wire isn't one whole chunked body, so that it has no payload.
pub fn payload_of(alloc: Global, framing: Framing, wire: &[u8]) -> Result<Bytes, PayloadFault>
    ensures ok { IfOk result (λ payload. IsPayload false framing wire.now payload) }
    ensures malformed { IsErrOf result PayloadFault.Malformed → (payload : List ℕ) → ¬ (IsPayload false framing wire.now payload) }
{
    match framing {
        Framing::Empty => Ok(Payload::lent(wire).into_bytes(alloc)?),
        Framing::Length(_) => Ok(Payload::lent(wire).into_bytes(alloc)?),
        Framing::Chunked => joined(alloc, wire),
        Framing::ToEnd => Ok(Payload::lent(wire).into_bytes(alloc)?),
    }
}

/// What came of the payload of a body that was cut: of a chunked one the data of its whole chunks, and of the unfinished
/// one as far as they came. Malformed: the wire isn't what came, within the limits of a reader, of a body of Length or
/// Chunked of which more was to come.
pub fn payload_of_cut(alloc: Global, framing: Framing, wire: &[u8]) -> Result<Bytes, PayloadFault>
    ensures wire { IfOk result (λ payload. IsCutWire framing wire.now) }
    ensures payload { IfOk result (λ payload. IsPayload true framing wire.now payload) }
    ensures malformed { IsErrOf result PayloadFault.Malformed → ¬ (IsCutWire framing wire.now) }
{
    Ok(cut_payload(alloc, framing, wire)?.into_bytes(alloc)?)
}

/// The payload of a wire, whole or cut; only that of a chunked wire takes memory. Malformed: the wire isn't a body of the
/// framing, or not what came of one that was cut, within the limits of a reader.
pub fn payload_in<'w>(
    alloc: Global,
    framing: Framing,
    wire: &'w [u8],
    cut: bool,
) -> Result<Payload<'w>, PayloadFault>
    ensures wire { IfOk result (λ payload. IsWire cut framing wire.now) }
    ensures payload { IfOk result (λ payload. IsPayload cut framing wire.now payload) }
    ensures malformed { IsErrOf result PayloadFault.Malformed → ¬ (IsWire cut framing wire.now) }
{
    match cut {
        true => cut_payload(alloc, framing, wire),
        false => whole_payload(alloc, framing, wire),
    }
}

/// The payload of a whole wire. Malformed: it isn't a body of the framing.
fn whole_payload<'w>(
    alloc: Global,
    framing: Framing,
    wire: &'w [u8],
) -> Result<Payload<'w>, PayloadFault>
    ensures wire { IfOk result (λ payload. IsBody framing wire.now) }
    ensures payload { IfOk result (λ payload. IsPayload false framing wire.now payload) }
    ensures malformed { IsErrOf result PayloadFault.Malformed → ¬ (IsBody framing wire.now) }
{
    match framing {
        Framing::Empty => {
            if !wire.is_empty() {
                return Err(PayloadFault::Malformed);
            }
            Ok(Payload::lent(wire))
        }
        Framing::Length(n) => {
            if wire.len() as u64 != n {
                return Err(PayloadFault::Malformed);
            }
            Ok(Payload::lent(wire))
        }
        Framing::Chunked => Ok(Payload::joined(wire, joined(alloc, wire)?)),
        Framing::ToEnd => Ok(Payload::lent(wire)),
    }
}

/// What came of the payload of a wire that was cut. Malformed: it isn't what came of a body of the framing, within the
/// limits.
fn cut_payload<'w>(
    alloc: Global,
    framing: Framing,
    wire: &'w [u8],
) -> Result<Payload<'w>, PayloadFault>
    ensures wire { IfOk result (λ payload. IsCutWire framing wire.now) }
    ensures payload { IfOk result (λ payload. IsPayload true framing wire.now payload) }
    ensures malformed { IsErrOf result PayloadFault.Malformed → ¬ (IsCutWire framing wire.now) }
{
    match framing {
        Framing::Empty => Err(PayloadFault::Malformed),
        Framing::Length(n) => {
            if n > BODY_LIMIT {
                return Err(PayloadFault::Malformed);
            }
            if wire.len() as u64 >= n {
                return Err(PayloadFault::Malformed);
            }
            Ok(Payload::lent(wire))
        }
        Framing::Chunked => Ok(Payload::joined(wire, cut_joined(alloc, wire)?)),
        Framing::ToEnd => Err(PayloadFault::Malformed),
    }
}

/// The data of a whole chunked body.
fn joined(alloc: Global, wire: &[u8]) -> Result<Bytes, PayloadFault>
    ensures wire { IfOk result (λ payload. IsBody Framing.Chunked wire.now) }
    ensures payload { IfOk result (λ payload. IsJoined wire.now payload) }
    ensures malformed { IsErrOf result PayloadFault.Malformed → ¬ (IsBody Framing.Chunked wire.now) }
{
    match decode(alloc, wire)? {
        Decoded::Whole(payload) => Ok(payload),
        Decoded::Cut(_) => Err(PayloadFault::Malformed),
        Decoded::Neither => Err(PayloadFault::Malformed),
    }
}

/// The data of a chunked body that was cut, within the limits.
fn cut_joined(alloc: Global, wire: &[u8]) -> Result<Bytes, PayloadFault>
    ensures wire { IfOk result (λ payload. IsCutWire Framing.Chunked wire.now) }
    ensures payload { IfOk result (λ payload. IsCutJoined wire.now payload) }
    ensures malformed { IsErrOf result PayloadFault.Malformed → ¬ (IsCutWire Framing.Chunked wire.now) }
{
    if !is_within_limits(wire) {
        return Err(PayloadFault::Malformed);
    }
    match decode(alloc, wire)? {
        Decoded::Whole(_) => Err(PayloadFault::Malformed),
        Decoded::Cut(payload) => Ok(payload),
        Decoded::Neither => Err(PayloadFault::Malformed),
    }
}
