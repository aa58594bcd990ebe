//! What tells the length of a message's body.
ghost use Rattle.std.specs.Prelude.{◌≡◌, codes, map, Err, if◌then◌else◌};
ghost use Rattle.std.specs.Str.{bytes_eq};
ghost use Rattle.capture.specs.Fields.{has_field, lowered, values_of};
ghost use Rattle.capture.specs.Framing as spec;
ghost use Rattle.capture.specs.Framing.{transfer_encoding, content_length, framed_by_length, framed_by_coding};
ghost use Rattle.http_head.specs.Heads.{named_value};
ghost use Rattle.message_body.specs.Framings.{framing_answer, told_by_request, told_by_response};

use crate::content_length::length_of;
use crate::fields::has_field;
use capture::Framing;
use http_head::{Field, RequestHead, ResponseHead, Version, WireFault};

/// The least status of a final response (RFC 9110, section 15).
const LEAST_FINAL: u16 = 200;

/// No Content (RFC 9110, section 15.3.5).
const NO_CONTENT: u16 = 204;

/// Not Modified (RFC 9110, section 15.4.5).
const NOT_MODIFIED: u16 = 304;

/// What tells the length of the body of a response, to HEAD or to another method (RFC 9112, section 6.3). The limit on
/// bodies is not looked at. Malformed: the fields contradict one another or the version, or a length is no number.
/// CodingRefused: the transfer coding isn't `chunked` alone. BodyTooLong: the length is 2 to the 64th or more.
pub fn framing_of(answers_head: bool, head: &ResponseHead) -> Result<Framing, WireFault>
    ensures { result ≡ framing_answer (told_by_response answers_head head.now) }
{
    if answers_head {
        return Ok(Framing::Empty);
    }
    if is_bodiless(head.status) {
        return Ok(Framing::Empty);
    }
    let fields = head.fields.as_slice();
    if has_field(fields, b"transfer-encoding") {
        return match head.version {
            Version::Http10 => Err(WireFault::Malformed),
            Version::Http11 => coding_of(fields),
        };
    }
    if has_field(fields, b"content-length") {
        return framing_of_length(fields);
    }
    Ok(Framing::ToEnd)
}

/// What tells the length of a request's body (RFC 9112, section 6.3). The limit on bodies is not looked at. Malformed:
/// the fields contradict one another or the version, or a length is no number. CodingRefused: the transfer coding isn't
/// `chunked` alone. BodyTooLong: the length is 2 to the 64th or more.
pub fn request_framing_of(head: &RequestHead) -> Result<Framing, WireFault>
    ensures { result ≡ framing_answer (told_by_request head.now) }
{
    let fields = head.fields.as_slice();
    if has_field(fields, b"transfer-encoding") {
        return match head.version {
            Version::Http10 => Err(WireFault::Malformed),
            Version::Http11 => coding_without_length(fields),
        };
    }
    if has_field(fields, b"content-length") {
        return framing_of_length(fields);
    }
    Ok(Framing::Empty)
}

/// Whether no body follows a response of this status.
fn is_bodiless(status: u16) -> bool
    ensures { result ≡ spec.is_bodiless status }
{
    status < LEAST_FINAL || status == NO_CONTENT || status == NOT_MODIFIED
}

/// The framing by the fields Content-Length.
fn framing_of_length(fields: &[Field]) -> Result<Framing, WireFault>
    ensures { result ≡ framing_answer (framed_by_length (map named_value fields.now)) }
{
    Ok(Framing::Length(length_of(fields)?))
}

/// The framing by the fields Transfer-Encoding, beside which no field Content-Length may stand.
fn coding_without_length(fields: &[Field]) -> Result<Framing, WireFault>
    ensures { result ≡ (if has_field content_length (map named_value fields.now) then Err WireFault.Malformed
        else framing_answer (framed_by_coding (map named_value fields.now))) }
{
    if has_field(fields, b"content-length") {
        return Err(WireFault::Malformed);
    }
    coding_of(fields)
}

/// The framing by the fields Transfer-Encoding.
fn coding_of(fields: &[Field]) -> Result<Framing, WireFault>
    ensures { result ≡ framing_answer (framed_by_coding (map named_value fields.now)) }
{
    if is_chunked(fields) {
        Ok(Framing::Chunked)
    } else {
        Err(WireFault::CodingRefused)
    }
}

/// Whether there is one field Transfer-Encoding, with the value `chunked`.
fn is_chunked(fields: &[Field]) -> bool
    ensures { result ≡ spec.is_chunked (values_of transfer_encoding (map named_value fields.now)) }
{
    for (i, field) in fields.iter().enumerate() {
        if field.has_name(b"transfer-encoding") {
            let (_, behind) = fields.split_at(i + 1);
            if has_field(behind, b"transfer-encoding") {
                return false;
            }
            return is_coding_chunked(field.value.as_slice());
        }
    }
    false
}

/// Whether the value is `chunked`, ASCII case ignored.
fn is_coding_chunked(value: &[u8]) -> bool
    ensures { result ≡ bytes_eq (lowered value.now) (codes "chunked") }
{
    value.eq_ignore_ascii_case(b"chunked")
}
