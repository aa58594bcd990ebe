//! Joins the data of a chunked body in the memory that the body has.
ghost use Rattle.std.specs.Prelude.{◌≡◌, ◌+◌, ◌-◌, ◌≤◌, ◌++◌, ℕ, Bool, true, List, IfOk, IsErrOf, length, take, drop};
ghost use Rattle.httparse.specs.Spans.{span_bytes};
ghost use Rattle.capture.specs.Body.{IsBody, IsCutWire, IsWire};
ghost use Rattle.capture.specs.Payload.{IsCutJoined, IsJoined, IsPayload};
ghost use Rattle.message_body.specs.Slices.{IsLeft};
ghost use Rattle.message_body.specs.steps.Decoding.{IsDecoded, IsGathered};

use crate::decode::{Decoded, TrailerSeen, trailer_of};
use crate::limits::is_within_limits;
use crate::payload::PayloadFault;
use crate::split::{Split, split_chunk};
use capture::{Bytes, Framing, Memory};
use httparse::spans::Span;
use std::alloc::Global;

/// What a text was whose data were moved to its front.
#[derive(Clone, Copy)]
pub enum Gathered {
    /// So many bytes of data, up to a line of size 0, which ends at this place.
    Last(usize, usize),
    /// A chunked body that was cut, of which so many bytes of data came.
    Cut(usize),
    /// No chunked body, whole or cut.
    Nothing,
}

/// The payload of a wire that is known to be one, whole or cut (RFC 9112, section 7.1), in the memory that the wire had.
/// Takes no memory.
pub fn payload_in_place(framing: Framing, wire: Bytes) -> Bytes
    ensures { (cut : Bool) (payload : List ℕ) → IsPayload cut framing wire payload → result ≡ payload }
{
    match framing {
        Framing::Empty => wire,
        Framing::Length(_) => wire,
        Framing::Chunked => data_in_place(wire.into_vec()),
        Framing::ToEnd => wire,
    }
}

/// The data of a chunked body that is known to be one, whole or cut.
fn data_in_place(wire: Vec<u8>) -> Bytes
    ensures { (payload : List ℕ) → IsLeft true wire.items payload → result ≡ payload }
{
    let mut bytes = wire;
    match gather(bytes.as_mut_slice()) {
        Gathered::Last(len, _) => front_of(bytes, len),
        Gathered::Cut(len) => front_of(bytes, len),
        Gathered::Nothing => Bytes::of(bytes),
    }
}

/// The data of a chunked wire, whole or cut (RFC 9112, section 7.1), in the memory that the wire had. Malformed: it isn't a
/// chunked body, or not what came of one that was cut, within the limits of a reader.
pub fn joined_in_place(alloc: Global, wire: Vec<u8>, cut: bool) -> Result<Bytes, PayloadFault>
    ensures wire { IfOk result (λ payload. IsWire cut Framing.Chunked wire.items) }
    ensures payload { IfOk result (λ payload. IsPayload cut Framing.Chunked wire.items payload) }
    ensures malformed { IsErrOf result PayloadFault.Malformed → ¬ (IsWire cut Framing.Chunked wire.items) }
{
    match cut {
        true => cut_in_place(alloc, wire),
        false => whole_in_place(alloc, wire),
    }
}

/// The data of a whole chunked body.
fn whole_in_place(alloc: Global, wire: Vec<u8>) -> Result<Bytes, PayloadFault>
    ensures wire { IfOk result (λ payload. IsBody Framing.Chunked wire.items) }
    ensures payload { IfOk result (λ payload. IsJoined wire.items payload) }
    ensures malformed { IsErrOf result PayloadFault.Malformed → ¬ (IsBody Framing.Chunked wire.items) }
{
    match decode_in_place(alloc, wire)? {
        Decoded::Whole(payload) => Ok(payload),
        Decoded::Cut(_) => Err(PayloadFault::Malformed),
        Decoded::Neither => Err(PayloadFault::Malformed),
    }
}

/// The data of a chunked body that was cut, within the limits.
fn cut_in_place(alloc: Global, wire: Vec<u8>) -> Result<Bytes, PayloadFault>
    ensures wire { IfOk result (λ payload. IsCutWire Framing.Chunked wire.items) }
    ensures payload { IfOk result (λ payload. IsCutJoined wire.items payload) }
    ensures malformed { IsErrOf result PayloadFault.Malformed → ¬ (IsCutWire Framing.Chunked wire.items) }
{
    if !is_within_limits(wire.as_slice()) {
        return Err(PayloadFault::Malformed);
    }
    match decode_in_place(alloc, wire)? {
        Decoded::Whole(_) => Err(PayloadFault::Malformed),
        Decoded::Cut(payload) => Ok(payload),
        Decoded::Neither => Err(PayloadFault::Malformed),
    }
}

/// What a text is, as `decode` says it. It has no limits. Only a trailer section takes memory.
fn decode_in_place(alloc: Global, wire: Vec<u8>) -> Result<Decoded, Memory>
    ensures { IfOk result (IsDecoded wire.items) }
{
    let mut bytes = wire;
    match gather(bytes.as_mut_slice()) {
        Gathered::Last(len, end) => {
            let (_, trailer) = bytes.as_slice().split_at(end);
            match trailer_of(alloc, trailer)? {
                TrailerSeen::Whole => Ok(Decoded::Whole(front_of(bytes, len))),
                TrailerSeen::Open => Ok(Decoded::Cut(front_of(bytes, len))),
                TrailerSeen::Wrong => Ok(Decoded::Neither),
            }
        }
        Gathered::Cut(len) => Ok(Decoded::Cut(front_of(bytes, len))),
        Gathered::Nothing => Ok(Decoded::Neither),
    }
}

/// The first bytes of a list.
fn front_of(bytes: Vec<u8>, len: usize) -> Bytes
    ensures { result ≡ take len bytes.items }
{
    let mut front = bytes;
    front.truncate(len);
    Bytes::of(front)
}

/// Moves the data of the chunks that the text is to its front (RFC 9112, section 7.1.3).
fn gather(bytes: &mut [u8]) -> Gathered
    ensures gathered { IsGathered bytes.old bytes.new result }
    ensures len { length bytes.new ≡ length bytes.old }
{
    let mut len = 0;
    let mut at = 0;
    'chunks: loop {
        let (_, rest) = bytes.split_at(at);
        match split_chunk(rest) {
            Split::Piece(span) => {
                move_forward(bytes, len, at, span);
                len += span.end - span.start;
                at += span.end + 2;
            }
            Split::Last(start) => return Gathered::Last(len, at + start),
            Split::Cut(span) => {
                move_forward(bytes, len, at, span);
                return Gathered::Cut(len + (span.end - span.start));
            }
            Split::Nothing => return Gathered::Nothing,
        }
    }
}

/// Moves the bytes of a span, which counts from `at` on, behind the first `len` ones.
fn move_forward(bytes: &mut [u8], len: usize, at: usize, span: Span)
    requires before { len ≤ at }
    requires ordered { span.start ≤ span.end }
    requires fits { at + span.end ≤ length bytes.old }
    ensures front { take (len + (span.end - span.start)) bytes.new ≡ take len bytes.old ++ span_bytes (drop at bytes.old) span }
    ensures behind { drop (at + span.end) bytes.new ≡ drop (at + span.end) bytes.old }
    ensures len { length bytes.new ≡ length bytes.old }
{
    bytes.copy_within(at + span.start..at + span.end, len);
}
