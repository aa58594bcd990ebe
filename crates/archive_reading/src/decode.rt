//! What stands behind a response's head: its framing, and its payload.
ghost use Rattle.std.specs.Prelude.{◌≡◌, IfOk};
ghost use Rattle.archive_reading.specs.Decoding as spec;
ghost use Rattle.archive_reading.specs.Decoding.{HoldsPayload, IsHead, TellsFraming};

use archive_volumes::is_head;
use capture::{Bytes, Framing, Memory};
use http_head::{WireFault, read_head};
use message_body::{PayloadFault, framing_of, joined_in_place};
use std::alloc::Global;

/// Whether the text is the head of a response.
pub(crate) fn is_response_head(alloc: Global, text: &[u8]) -> Result<bool, Memory>
    ensures { IfOk result (IsHead text.now) }
{
    match read_head(alloc, text) {
        Ok(_) => Ok(true),
        Err(WireFault::Malformed) => Ok(false),
        Err(WireFault::Memory) => Err(Memory),
        Err(_) => unreachable!(),
    }
}

/// The framing of what stands behind a head that answers a request of this method (RFC 9112, section 6.3); none where the
/// text is no head, or tells no framing.
pub fn framing_behind(alloc: Global, method: &[u8], head: &[u8]) -> Result<Option<Framing>, Memory>
    ensures { IfOk result (TellsFraming method.now head.now) }
{
    let parts = match read_head(alloc, head) {
        Ok(parts) => parts,
        Err(WireFault::Malformed) => return Ok(None),
        Err(WireFault::Memory) => return Err(Memory),
        Err(_) => unreachable!(),
    };
    match framing_of(is_head(method), &parts) {
        Ok(framing) => Ok(Some(framing)),
        Err(_) => Ok(None),
    }
}

/// Whether a wire of this framing is its payload as it stands.
pub fn is_plain(framing: Framing) -> bool
    ensures { result ≡ spec.is_plain framing }
{
    match framing {
        Framing::Empty => true,
        Framing::Length(_) => true,
        Framing::Chunked => false,
        Framing::ToEnd => true,
    }
}

/// The payload of a wire, whole or cut (RFC 9112, sections 6 and 7.1), in the memory of that; none where it isn't a body
/// of that framing.
pub(crate) fn payload_in(
    alloc: Global,
    framing: Framing,
    wire: Vec<u8>,
    cut: bool,
) -> Result<Option<Bytes>, Memory>
    ensures { IfOk result (HoldsPayload cut framing wire.items) }
{
    match framing {
        Framing::Empty => Ok(Some(Bytes::of(wire))),
        Framing::Length(_) => Ok(Some(Bytes::of(wire))),
        Framing::Chunked => data_of(alloc, wire, cut),
        Framing::ToEnd => Ok(Some(Bytes::of(wire))),
    }
}

/// The data of a chunked body, whole or cut.
fn data_of(alloc: Global, wire: Vec<u8>, cut: bool) -> Result<Option<Bytes>, Memory>
    ensures { IfOk result (HoldsPayload cut Framing.Chunked wire.items) }
{
    match joined_in_place(alloc, wire, cut) {
        Ok(payload) => Ok(Some(payload)),
        Err(PayloadFault::Malformed) => Ok(None),
        Err(PayloadFault::Memory) => Err(Memory),
    }
}
