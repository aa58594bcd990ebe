//! The head of the origin's response as the client gets it.
ghost use Rattle.std.specs.Prelude.{◌≡◌, ◌++◌, OnOk};
ghost use Rattle.http_wire.specs.Messages.{IsOneResponse};
ghost use Rattle.exchange.specs.Texts as spec;
ghost use Rattle.exchange.specs.Texts.{answered_head, answered_head_end, length_line_unless, told_length_line};

use crate::filter::put_client_fields;
use crate::lines::{put_cut_line, put_via_line};
use capture::{Framing, Memory};
use head_lines::{
    put_close_line_where, put_length_line, put_line_end, put_status_line, tells_no_length,
};
use http_head::Received;
use std::alloc::Global;

/// Puts the head of what the client gets of a response, whole or cut (RFC 9110, section 7.6), whose payload has this
/// length, where the request was HEAD or not, and where the connection closes after it or not.
#[tactic(auto, unfolding(crate::specs::Texts::answered_head))]
pub fn put_client_head(
    alloc: Global,
    out: &mut Vec<u8>,
    received: &Received,
    len: u64,
    answers_head: bool,
    closes: bool,
) -> Result<(), Memory>
    requires { IsOneResponse answers_head received.now }
    ensures { OnOk result (out.new.items ≡ out.old.items ++ answered_head received.now len answers_head closes) }
{
    let head = &received.head;
    put_status_line(out, head.status, head.reason.as_slice())?;
    put_client_fields(
        alloc,
        out,
        head.fields.as_slice(),
        keeps_length(answers_head, head.status),
    )?;
    put_via_line(out, head.version)?;
    put_head_end(out, received, len, answers_head, closes)
}

/// Puts what stands in that head behind the fields that came.
#[tactic(auto, unfolding(crate::specs::Texts::answered_head_end))]
fn put_head_end(
    out: &mut Vec<u8>,
    received: &Received,
    len: u64,
    answers_head: bool,
    closes: bool,
) -> Result<(), Memory>
    ensures { OnOk result (out.new.items ≡ out.old.items ++ answered_head_end received.now len answers_head closes) }
{
    let without = has_no_length(answers_head, received.head.status);
    put_cut_line(out, received.cut)?;
    put_length_unless(out, without, received, len)?;
    put_close_line_where(out, received.cut || closes)?;
    put_line_end(out)
}

/// Whether the length that came goes on, since it is that of another response's body (RFC 9110, section 8.6).
fn keeps_length(answers_head: bool, status: u16) -> bool
    ensures { result ≡ spec.keeps_length answers_head status }
{
    answers_head || status == 304
}

/// Whether the response has no length of its own.
fn has_no_length(answers_head: bool, status: u16) -> bool
    ensures { result ≡ spec.has_no_length answers_head status }
{
    answers_head || tells_no_length(status)
}

/// Puts the length of the response, unless it has none: of a whole one that of its payload, of one that was cut what
/// it told.
#[tactic(auto, unfolding(crate::specs::Texts::length_line_unless))]
fn put_length_unless(
    out: &mut Vec<u8>,
    without: bool,
    received: &Received,
    len: u64,
) -> Result<(), Memory>
    ensures { OnOk result (out.new.items ≡ out.old.items ++ length_line_unless without received.now.cut received.now.framing len) }
{
    if without {
        return Ok(());
    }
    if received.cut {
        return put_told_length(out, received.framing);
    }
    put_length_line(out, len)
}

/// Puts the length that a response told of its body, where it told one.
#[tactic(auto, unfolding(crate::specs::Texts::told_length_line))]
fn put_told_length(out: &mut Vec<u8>, framing: Framing) -> Result<(), Memory>
    ensures { OnOk result (out.new.items ≡ out.old.items ++ told_length_line framing) }
{
    match framing {
        Framing::Length(told) => put_length_line(out, told),
        Framing::Empty => Ok(()),
        Framing::Chunked => Ok(()),
        Framing::ToEnd => Ok(()),
    }
}
