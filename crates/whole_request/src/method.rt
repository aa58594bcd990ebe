//! Reads the method of a request that is there whole, and keeps nothing else of it.
ghost use Rattle.std.specs.Prelude.{◌≡◌, ◌++◌, ℕ, List, Ok, IfErr, IfOk, IsErrOf, OnOk};
ghost use Rattle.capture.specs.Body.{IsBody};
ghost use Rattle.capture.specs.Framing.{request_framing};
ghost use Rattle.capture.specs.Message.{IsRequestHeadText, IsWholeRequest};
ghost use Rattle.capture.specs.WellFormed.{IsRequestOf};
ghost use Rattle.capture.specs.declared.framing.Framing.{Framing as FramingForm};
ghost use Rattle.httparse.specs.Grammar.{RequestHead as RequestForm};
ghost use Rattle.http_head.specs.Heads.{IsHeadFault};

use capture::{Framing, Text};
use http_head::{WireFault, find_head_end, read_request_head, read_request_outline};
use message_body::{PayloadFault, payload_in, request_framing_of};
use std::alloc::Global;

/// The method of the request that the text is. Where its head tells no length of a body, nothing but the method takes memory;
/// else the head is read in parts, and that its body is one is looked at. Malformed: the text isn't one whole request that
/// begins with its first line. There is no limit.
pub fn request_method_in(alloc: Global, text: &[u8]) -> Result<Text, WireFault>
    ensures ok { IfOk result (λ method. IsRequestOf method text.now) }
    ensures malformed { IsErrOf result WireFault.Malformed → (h : RequestForm) (framing : FramingForm) (wire : List ℕ) → ¬ (IsWholeRequest text.now h framing wire) }
    ensures faults { IfErr result IsHeadFault }
{
    match find_head_end(text) {
        Some(end) => {
            let (front, wire) = text.split_at(end);
            method_before(alloc, front, wire)
        }
        None => Err(WireFault::Malformed),
    }
}

/// The method of the head that the front is, where the wire is its body.
fn method_before(alloc: Global, front: &[u8], wire: &[u8]) -> Result<Text, WireFault>
    ensures ok { IfOk result (λ method. IsRequestOf method (front.now ++ wire.now)) }
    ensures malformed { IsErrOf result WireFault.Malformed → (h : RequestForm) (framing : FramingForm)
        → IsRequestHeadText front.now h → request_framing h ≡ Ok framing → ¬ (IsBody framing wire.now) }
    ensures faults { IfErr result IsHeadFault }
{
    // With `?` the clause on malformed texts stays open here.
    let outline = match read_request_outline(alloc, front) {
        Ok(outline) => outline,
        Err(fault) => return Err(fault),
    };
    if outline.is_framed {
        return framed_method(alloc, front, wire);
    }
    if wire.is_empty() {
        Ok(outline.method)
    } else {
        Err(WireFault::Malformed)
    }
}

/// The same where the head may tell a length of the body.
fn framed_method(alloc: Global, front: &[u8], wire: &[u8]) -> Result<Text, WireFault>
    ensures ok { IfOk result (λ method. IsRequestOf method (front.now ++ wire.now)) }
    ensures malformed { IsErrOf result WireFault.Malformed → (h : RequestForm) (framing : FramingForm)
        → IsRequestHeadText front.now h → request_framing h ≡ Ok framing → ¬ (IsBody framing wire.now) }
    ensures faults { IfErr result IsHeadFault }
{
    // With `?` the clause on malformed texts stays open here.
    let head = match read_request_head(alloc, front) {
        Ok(head) => head,
        Err(fault) => return Err(fault),
    };
    let framing = match request_framing_of(&head) {
        Ok(framing) => framing,
        Err(_) => return Err(WireFault::Malformed),
    };
    match check_body(alloc, framing, wire) {
        Ok(()) => Ok(head.method),
        Err(fault) => Err(fault),
    }
}

/// Whether the wire is a body of the framing. Malformed: it is none.
fn check_body(alloc: Global, framing: Framing, wire: &[u8]) -> Result<(), WireFault>
    ensures body { OnOk result (IsBody framing wire.now) }
    ensures malformed { IsErrOf result WireFault.Malformed → ¬ (IsBody framing wire.now) }
    ensures faults { IfErr result IsHeadFault }
{
    match payload_in(alloc, framing, wire, false) {
        Ok(_payload) => Ok(()),
        Err(PayloadFault::Malformed) => Err(WireFault::Malformed),
        Err(PayloadFault::Memory) => Err(WireFault::Memory),
    }
}
