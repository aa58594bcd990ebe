//! Reads a request that is there whole.
ghost use Rattle.std.specs.Prelude.{◌≡◌, ◌++◌, ℕ, List, false, Ok, IfOk, IfErr, IsErrOf};
ghost use Rattle.capture.specs.Body.{IsBody};
ghost use Rattle.capture.specs.Framing.{request_framing};
ghost use Rattle.capture.specs.Message.{IsRequestHeadText, IsWholeRequest};
ghost use Rattle.capture.specs.Payload.{IsPayload};
ghost use Rattle.capture.specs.declared.framing.Framing.{Framing as FramingForm};
ghost use Rattle.httparse.specs.Grammar.{RequestHead as RequestForm};
ghost use Rattle.http_head.specs.Heads.{IsHeadFault};
ghost use Rattle.whole_request.specs.WholeRequests.{IsRequestText};

use capture::{Bytes, Framing};
use http_head::{RequestMessage, WireFault, find_head_end, read_request_head};
use message_body::{PayloadFault, payload_in, request_framing_of};
use std::alloc::Global;

/// The request that the text is. Malformed: the text isn't one whole request that begins with its first line. There is no
/// limit.
pub fn read_request(alloc: Global, text: &[u8]) -> Result<RequestMessage, WireFault>
    ensures ok { IfOk result (IsRequestText text.now) }
    ensures malformed { IsErrOf result WireFault.Malformed → (h : RequestForm) (framing : FramingForm) (wire : List ℕ) → ¬ (IsWholeRequest text.now h framing wire) }
    ensures faults { IfErr result IsHeadFault }
{
    match find_head_end(text) {
        Some(end) => {
            let (front, wire) = text.split_at(end);
            read_parts(alloc, front, wire)
        }
        None => Err(WireFault::Malformed),
    }
}

/// The request of this head and this body.
fn read_parts(alloc: Global, front: &[u8], wire: &[u8]) -> Result<RequestMessage, WireFault>
    ensures ok { IfOk result (IsRequestText (front.now ++ wire.now)) }
    ensures malformed { IsErrOf result WireFault.Malformed → (h : RequestForm) (framing : FramingForm)
        → IsRequestHeadText front.now h → request_framing h ≡ Ok framing → ¬ (IsBody framing wire.now) }
    ensures faults { IfErr result IsHeadFault }
{
    let head = read_request_head(alloc, front)?;
    let framing = match request_framing_of(&head) {
        Ok(framing) => framing,
        Err(_) => return Err(WireFault::Malformed),
    };
    let payload = whole_payload(alloc, framing, wire)?;
    Ok(RequestMessage {
        head,
        framing,
        payload,
    })
}

/// The payload of the wire. Malformed: it is no body of the framing.
fn whole_payload(alloc: Global, framing: Framing, wire: &[u8]) -> Result<Bytes, WireFault>
    ensures body { IfOk result (λ _. IsBody framing wire.now) }
    ensures payload { IfOk result (IsPayload false framing wire.now) }
    ensures malformed { IsErrOf result WireFault.Malformed → ¬ (IsBody framing wire.now) }
    ensures faults { IfErr result IsHeadFault }
{
    match payload_in(alloc, framing, wire, false) {
        Ok(payload) => Ok(payload.into_bytes(alloc)?),
        Err(PayloadFault::Malformed) => Err(WireFault::Malformed),
        Err(PayloadFault::Memory) => Err(WireFault::Memory),
    }
}
