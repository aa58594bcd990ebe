//! The payloads of bodies, whole or cut: their digests and their lengths.
ghost use Rattle.std.specs.Prelude.{◌≡◌, length, IfOk, IfErr, IsErrOf};
ghost use Rattle.sha1.specs.Sha1.{sha1};
ghost use Rattle.capture.specs.Body.{IsWire};
ghost use Rattle.warc_scan.specs.steps.Digests.{HasDigest, HasLength};
ghost use Rattle.warc_scan.specs.steps.Responses.{IsMessageStop};

use capture::{Digest, Framing};
use digest32::payload_digest;
use message_body::{PayloadFault, payload_in};
use record_opening::Stop;
use std::alloc::Global;

/// What is told of a payload.
#[derive(Clone, Copy)]
pub struct Summary {
    /// Its digest.
    pub digest: Digest,
    /// Its length in bytes.
    pub len: u64,
}

/// The digest and the length of a payload.
fn summary_of(payload: &[u8]) -> Summary
    ensures digest { result.digest ≡ sha1 payload.now }
    ensures length { result.len ≡ length payload.now }
{
    Summary {
        digest: payload_digest(payload),
        len: payload.len() as u64,
    }
}

/// The digest and the length of the payload of a wire, whole or cut. `Wrong`: the wire isn't a body of the framing, or not
/// what came of one that was cut, within the limits of a reader.
pub fn summary_in(alloc: Global, framing: Framing, wire: &[u8], cut: bool) -> Result<Summary, Stop>
    ensures wire { IfOk result (λ summary. IsWire cut framing wire.now) }
    ensures digest { IfOk result (λ summary. HasDigest cut framing wire.now summary.digest) }
    ensures length { IfOk result (λ summary. HasLength cut framing wire.now summary.len) }
    ensures wrong { IsErrOf result Stop.Wrong → ¬ (IsWire cut framing wire.now) }
    ensures stops { IfErr result IsMessageStop }
{
    match payload_in(alloc, framing, wire, cut) {
        Ok(payload) => Ok(summary_of(payload.as_slice())),
        Err(PayloadFault::Malformed) => Err(Stop::Wrong),
        Err(PayloadFault::Memory) => Err(Stop::Memory),
    }
}
