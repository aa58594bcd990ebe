//! The request as the origin gets it.
ghost use Rattle.std.specs.Prelude.{◌≡◌, ◌++◌, OnOk, IfOk};
ghost use Rattle.exchange.specs.Texts.{forwarded, length_line_of};

use crate::aim::Target;
use crate::filter::put_origin_fields;
use crate::lines::{put_host_line, put_request_line, put_via_line};
use capture::{Bytes, Framing, Memory, put_all};
use head_lines::{put_close_line, put_length_line, put_line_end};
use http_head::RequestMessage;
use std::alloc::Global;

/// More than what the proxy adds to a head, but for the host.
const ADDED: usize = 256;

/// The text that is sent to the origin for this request (RFC 9110, section 7.6; RFC 9112, section 3.2).
pub fn forward_text(
    alloc: Global,
    message: &RequestMessage,
    target: &Target,
) -> Result<Bytes, Memory>
    ensures { IfOk result (λ text. text ≡ forwarded message.now target.now) }
{
    let len = message.payload.as_slice().len();
    let capacity = message.head.text.as_slice().len().saturating_add(len);
    let mut out = Vec::with_capacity(
        alloc,
        capacity.saturating_add(target.host.as_slice().len() + ADDED),
    )?;
    put_forwarded(alloc, &mut out, message, target)?;
    Ok(Bytes::of(out))
}

/// Puts that text.
#[tactic(auto, unfolding(crate::specs::Texts::forwarded))]
fn put_forwarded(
    alloc: Global,
    out: &mut Vec<u8>,
    message: &RequestMessage,
    target: &Target,
) -> Result<(), Memory>
    ensures { OnOk result (out.new.items ≡ out.old.items ++ forwarded message.now target.now) }
{
    let head = &message.head;
    let payload = message.payload.as_slice();
    put_request_line(out, head.method.as_slice(), target.path.as_slice())?;
    put_host_line(out, target.host.as_slice(), target.port)?;
    put_origin_fields(alloc, out, head.fields.as_slice())?;
    put_via_line(out, head.version)?;
    put_framed_length(out, message.framing, payload)?;
    put_close_line(out)?;
    put_line_end(out)?;
    put_all(out, payload)
}

/// Puts the length of the payload, where there is a body.
#[tactic(auto, unfolding(crate::specs::Texts::length_line_of))]
fn put_framed_length(out: &mut Vec<u8>, framing: Framing, payload: &[u8]) -> Result<(), Memory>
    ensures { OnOk result (out.new.items ≡ out.old.items ++ length_line_of framing payload.now) }
{
    match framing {
        Framing::Empty => Ok(()),
        Framing::Length(_) | Framing::Chunked | Framing::ToEnd => put_length_line(
            out,
            payload.len() as u64,
        ),
    }
}
