//! The response of a group (RFC 9112), by what its record says of it.
ghost use Rattle.std.specs.Prelude.{◌≡◌, ◌↔◌, ℕ, List, ◌++◌, false, true, Result, IfOk, IfErr, IsErrOf, IsTrue};
ghost use Rattle.capture.specs.Methods.{asks_for_head};
ghost use Rattle.capture.specs.WellFormed.{IsFinalHead};
ghost use Rattle.capture.specs.declared.captured.Kept.{Kept as KeptForm};
ghost use Rattle.capture.specs.declared.captured.Kept.TheVariants.{Cut, Wire};
ghost use Rattle.capture.specs.declared.framing.Framing.{Framing as FramingForm};
ghost use Rattle.capture.specs.declared.framing.FramingFault.{FramingFault};
ghost use Rattle.httparse.specs.Grammar.{ResponseHead as ResponseForm};
ghost use Rattle.message_body.specs.Framings.{framing_answer, told_by_response};
ghost use Rattle.record_opening.specs.Openings.{IsOpening, opening_of};
ghost use Rattle.warc_scan.specs.steps.Responses.{AreParts, IsAnswerOf, IsRead, IsSomeBody, IsToldBy, TellsOfBody, IsMessageStop};
ghost use Rattle.warc_scan.specs.Groups.{HasPayloadLen, IsResponse};

use crate::wire_digest::summary_in;
use capture::{Digest, Framing};
use http_head::{ResponseHead, WireFault, find_head_end, is_short_head, read_head};
use message_body::framing_of;
use record_opening::{Opening, Stop};
use std::alloc::Global;

/// The least status of a final response (RFC 9110, section 15).
const LEAST_FINAL: u16 = 200;

/// The method that asks for a head alone (RFC 9110, section 9.3.2).
const HEAD: &[u8] = b"HEAD";

/// In which form a response stands in a group.
#[derive(Clone, Copy)]
pub enum Form {
    /// Whole.
    Whole,
    /// Its head alone.
    Revisit,
    /// As far as it came.
    Cut,
}

/// A response in a block, no byte of which is copied but its head's parts.
#[derive(Drop)]
pub struct Answer<'b> {
    /// Its head.
    pub head: &'b [u8],
    /// What stands behind that.
    pub wire: &'b [u8],
    /// The parts of its head.
    pub parsed: ResponseHead,
    /// In which form it is kept.
    pub form: Form,
    /// The length of its payload in bytes: 0 of a revisit.
    pub payload_len: u64,
}

/// A block, split behind the head of a final response.
#[derive(Drop)]
struct Parts<'b> {
    head: &'b [u8],
    wire: &'b [u8],
    parsed: ResponseHead,
}

/// What the parts of a block are.
#[derive(Clone, Copy)]
struct Told {
    form: Form,
    payload_len: u64,
}

/// The response, to a request of this method, that the block is. `Wrong`: it is none of which the opening may speak.
pub fn read_answer<'b>(
    alloc: Global,
    method: &[u8],
    block: &'b [u8],
    opening: &Opening<'_>,
) -> Result<Answer<'b>, Stop>
    requires { IsOpening (opening_of opening.now) }
    ensures ok { IfOk result (IsRead method.now block.now opening.now) }
    ensures wrong { IsErrOf result Stop.Wrong → (head : List ℕ) (kept : KeptForm)
        → ¬ (IsAnswerOf method.now block.now opening.now head kept) }
    ensures stops { IfErr result IsMessageStop }
{
    let parts = split_head(alloc, block)?;
    let told = tell(alloc, method, &parts, opening)?;
    Ok(Answer {
        head: parts.head,
        wire: parts.wire,
        parsed: parts.parsed,
        form: told.form,
        payload_len: told.payload_len,
    })
}

/// What the parts are, by what the opening says. `Wrong`: they are none of which it may speak.
fn tell(
    alloc: Global,
    method: &[u8],
    parts: &Parts<'_>,
    opening: &Opening<'_>,
) -> Result<Told, Stop>
    requires right { IsOpening (opening_of opening.now) }
    requires parts { AreParts parts.now }
    ensures ok { IfOk result (IsToldBy method.now parts.now opening.now) }
    ensures wrong { IsErrOf result Stop.Wrong → (head : List ℕ) (kept : KeptForm)
        → ¬ (IsAnswerOf method.now (parts.now.head.now ++ parts.now.wire.now) opening.now head kept) }
    ensures stops { IfErr result IsMessageStop }
{
    match opening.same {
        Some(_) => revisit(method, parts),
        None => {
            if opening.cut {
                return cut_response(alloc, method, parts, &opening.digest);
            }
            whole_response(alloc, method, parts, &opening.digest)
        }
    }
}

/// Splits a block behind its head. `Wrong`: it begins with no head of a final response.
fn split_head(alloc: Global, block: &[u8]) -> Result<Parts<'_>, Stop>
    ensures ok { IfOk result (λ parts. (block.now ≡ parts.head.now ++ parts.wire.now) × AreParts parts) }
    ensures wrong { IsErrOf result Stop.Wrong → (head wire : List ℕ) (parsed : ResponseForm) → block.now ≡ head ++ wire
        → ¬ (IsFinalHead head parsed) }
    ensures stops { IfErr result IsMessageStop }
{
    let Some(end) = find_head_end(block) else {
        return Err(Stop::Wrong);
    };
    let (head, wire) = block.split_at(end);
    match read_head(alloc, head) {
        Err(WireFault::Malformed) => Err(Stop::Wrong),
        // A head without limits has no other fault.
        Err(_) => Err(Stop::Memory),
        Ok(parsed) => {
            if parsed.status < LEAST_FINAL {
                return Err(Stop::Wrong);
            }
            Ok(Parts { head, wire, parsed })
        }
    }
}

/// A revisit has the head alone, which tells of a body.
fn revisit(method: &[u8], parts: &Parts<'_>) -> Result<Told, Stop>
    requires { AreParts parts.now }
    ensures ok { IfOk result (λ told. (told.form ≡ Form.Revisit) × (told.payload_len ≡ 0) × TellsOfBody method.now parts.now) }
    ensures wrong { IsErrOf result Stop.Wrong → ¬ (TellsOfBody method.now parts.now) }
    ensures stops { IfErr result IsMessageStop }
{
    if !parts.wire.is_empty() {
        return Err(Stop::Wrong);
    }
    if !tells_body(told_framing(method, parts)) {
        return Err(Stop::Wrong);
    }
    Ok(Told {
        form: Form::Revisit,
        payload_len: 0,
    })
}

/// Whether a body follows the head of which this was told.
fn tells_body(answer: Result<Framing, WireFault>) -> bool
    ensures { (told : Result FramingForm FramingFault) → answer ≡ framing_answer told → (IsTrue result ↔ IsSomeBody told) }
{
    match answer {
        Ok(Framing::Empty) => false,
        Ok(Framing::Length(_)) => true,
        Ok(Framing::Chunked) => true,
        Ok(Framing::ToEnd) => true,
        // A length past 64 bits tells of a body too.
        Err(WireFault::BodyTooLong) => true,
        Err(_) => false,
    }
}

/// A whole response, whose payload has the digest.
fn whole_response(
    alloc: Global,
    method: &[u8],
    parts: &Parts<'_>,
    digest: &Digest,
) -> Result<Told, Stop>
    requires { AreParts parts.now }
    ensures ok { IfOk result (λ told. (told.form ≡ Form.Whole) × IsResponse false method.now parts.now.head.now parts.now.wire.now digest.now
        × HasPayloadLen method.now parts.now.head.now (Wire parts.now.wire.now) told.payload_len) }
    ensures wrong { IsErrOf result Stop.Wrong → ¬ (IsResponse false method.now parts.now.head.now parts.now.wire.now digest.now) }
    ensures stops { IfErr result IsMessageStop }
{
    let framing = match told_framing(method, parts) {
        Ok(framing) => framing,
        Err(_) => return Err(Stop::Wrong),
    };
    let found = summary_in(alloc, framing, parts.wire, false)?;
    if !is_same(&found.digest, digest) {
        return Err(Stop::Wrong);
    }
    Ok(Told {
        form: Form::Whole,
        payload_len: found.len,
    })
}

/// A response that was cut, within the limits, of which what came of the payload has the digest.
fn cut_response(
    alloc: Global,
    method: &[u8],
    parts: &Parts<'_>,
    digest: &Digest,
) -> Result<Told, Stop>
    requires { AreParts parts.now }
    ensures ok { IfOk result (λ told. (told.form ≡ Form.Cut) × IsResponse true method.now parts.now.head.now parts.now.wire.now digest.now
        × HasPayloadLen method.now parts.now.head.now (Cut parts.now.wire.now) told.payload_len) }
    ensures wrong { IsErrOf result Stop.Wrong → ¬ (IsResponse true method.now parts.now.head.now parts.now.wire.now digest.now) }
    ensures stops { IfErr result IsMessageStop }
{
    if !is_short_head(parts.head) {
        return Err(Stop::Wrong);
    }
    let framing = match told_framing(method, parts) {
        Ok(framing) => framing,
        Err(_) => return Err(Stop::Wrong),
    };
    let found = summary_in(alloc, framing, parts.wire, true)?;
    if !is_same(&found.digest, digest) {
        return Err(Stop::Wrong);
    }
    Ok(Told {
        form: Form::Cut,
        payload_len: found.len,
    })
}

/// Whether the digests are the same.
fn is_same(found: &Digest, told: &Digest) -> bool
    ensures { IsTrue result ↔ (found.now ≡ told.now) }
{
    found == told
}

/// What the head tells of the body, in a response to this method.
fn told_framing(method: &[u8], parts: &Parts<'_>) -> Result<Framing, WireFault>
    ensures { result ≡ framing_answer (told_by_response (asks_for_head method.now) parts.now.parsed) }
{
    framing_of(method == HEAD, &parts.parsed)
}
