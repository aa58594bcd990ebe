//! What heads tell of bodies, within the limit of a body.
ghost use Rattle.std.specs.Prelude.{◌≡◌, Result};
ghost use Rattle.capture.specs.declared.framing.Framing.{Framing};
ghost use Rattle.capture.specs.declared.framing.FramingFault.{FramingFault};
ghost use Rattle.message_body.specs.Framings.{framing_answer, told_by_request, told_by_response};
ghost use Rattle.http_wire.specs.steps.Told.{IsTold};

use capture::{BODY_LIMIT, Framing};
use http_head::{RequestHead, ResponseHead, WireFault};
use message_body::{framing_of, request_framing_of};

/// What the head of a request tells (RFC 9112, section 6.3). BodyTooLong: a length that passes the limit.
pub fn request_framing(head: &RequestHead) -> Result<Framing, WireFault>
    ensures { IsTold (told_by_request head.now) result }
{
    within_limit(request_framing_of(head))
}

/// What the head of a response tells, to HEAD or to another method. BodyTooLong: a length that passes the limit.
pub fn response_framing(answers_head: bool, head: &ResponseHead) -> Result<Framing, WireFault>
    ensures { IsTold (told_by_response answers_head head.now) result }
{
    within_limit(framing_of(answers_head, head))
}

/// What is told, unless it is a length that passes the limit.
fn within_limit(answer: Result<Framing, WireFault>) -> Result<Framing, WireFault>
    ensures { (told : Result Framing FramingFault) → answer ≡ framing_answer told → IsTold told result }
{
    match answer {
        Ok(Framing::Length(length)) => {
            if length > BODY_LIMIT {
                return Err(WireFault::BodyTooLong);
            }
            Ok(Framing::Length(length))
        }
        Ok(Framing::Empty) => Ok(Framing::Empty),
        Ok(Framing::Chunked) => Ok(Framing::Chunked),
        Ok(Framing::ToEnd) => Ok(Framing::ToEnd),
        Err(fault) => Err(fault),
    }
}
