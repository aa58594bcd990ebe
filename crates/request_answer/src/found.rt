//! What is found in the archive, as an answer.
ghost use Rattle.std.specs.Prelude.{◌≡◌, ◌++◌, length, IfOk, OnOk};
ghost use Rattle.capture.specs.Methods.{asks_for_head as is_head};
ghost use Rattle.head_lines.specs.Lines.{head_end};
ghost use Rattle.request_answer.specs.SiteAnswers as spec;
ghost use Rattle.request_answer.specs.steps.Givens.{found_start, nothing_text};

use crate::answer_text::Answer;
use crate::heads::asks_for_head;
use crate::visit::Visit;
use capture::{Bytes, Memory};
use head_lines::{
    Status, put_close_line_where, put_head_end, put_line_end, put_own_status_line, put_status_line,
    put_type_line,
};
use std::alloc::Global;

/// More than the head of such an answer has, in bytes.
const ROOM: usize = 256;

/// The answer with a body of this type.
#[tactic(auto, unfolding(crate::specs::SiteAnswers::found_text, crate::specs::steps::Givens::found_start))]
pub fn found(alloc: Global, visit: Visit, media_type: &[u8], body: Bytes) -> Result<Answer, Memory>
    ensures text { IfOk result (λ answer. answer.text ≡ spec.found_text media_type.now body (is_head visit.entry.message.now.head.method) visit.entry.closes) }
    ensures closes { IfOk result (λ answer. answer.closes ≡ visit.entry.closes) }
{
    let len = body.as_slice().len();
    let head = found_head(alloc, media_type, len, visit.closes)?;
    if asks_for_head(&visit.message.head) {
        return Ok(Answer::of(Bytes::of(head), visit.closes));
    }
    Answer::behind(head, body, visit.closes)
}

/// The head of the answer with a body of this type, of so many bytes.
fn found_head(alloc: Global, media_type: &[u8], len: usize, closes: bool) -> Result<Vec<u8>, Memory>
    ensures { IfOk result (λ head. head.items ≡ found_start media_type.now ++ head_end len closes) }
{
    let mut out = Vec::with_capacity(alloc, ROOM)?;
    put_start(&mut out, media_type)?;
    put_head_end(&mut out, len as u64, closes)?;
    Ok(out)
}

/// Puts the status line of what is found, and its type.
#[tactic(auto, unfolding(crate::specs::steps::Givens::found_start))]
fn put_start(out: &mut Vec<u8>, media_type: &[u8]) -> Result<(), Memory>
    ensures { OnOk result (out.new.items ≡ out.old.items ++ found_start media_type.now) }
{
    put_own_status_line(out, Status::Ok)?;
    put_type_line(out, media_type)
}

/// The answer that there is nothing as yet (RFC 9110, section 15.3.5). It has no body, and tells no length.
pub fn nothing(alloc: Global, closes: bool) -> Result<Answer, Memory>
    ensures text { IfOk result (λ answer. answer.text ≡ nothing_text closes) }
    ensures closes { IfOk result (λ answer. answer.closes ≡ closes) }
{
    let mut out = Vec::with_capacity(alloc, ROOM)?;
    put_nothing(&mut out, closes)?;
    Ok(Answer::of(Bytes::of(out), closes))
}

/// Puts the head of that answer.
fn put_nothing(out: &mut Vec<u8>, closes: bool) -> Result<(), Memory>
    ensures { OnOk result (out.new.items ≡ out.old.items ++ nothing_text closes) }
{
    put_status_line(out, 204, b"No Content")?;
    put_close_line_where(out, closes)?;
    put_line_end(out)
}
