//! What the head of a request asks of the connection.
ghost use Rattle.std.specs.Prelude.{◌≡◌, ◌<◌, ◌||◌, not, codes, map};
ghost use Rattle.std.specs.List.{list_any};
ghost use Rattle.std.specs.Str.{bytes_eq};
ghost use Rattle.capture.specs.Fields.{lowered};
ghost use Rattle.http_head.specs.Heads.{named_value};
ghost use Rattle.message_body.specs.Framings.{members, told_by_request};
ghost use Rattle.request_answer.specs.Requests as spec;
ghost use Rattle.session.specs.steps.Heads as steps;

use capture::{BODY_LIMIT, Framing};
use http_head::{Field, RequestHead, Version};
use message_body::{request_framing_of, split_member};
use request_answer::REQUEST_LIMIT;

/// Whether the connection closes after a request with this head, which is the next behind so many: HTTP/1.0 has one request a
/// connection, a head may ask for it, and the last request that is served closes (RFC 9112, section 9.6).
pub fn closes_after(served: usize, head: &RequestHead) -> bool
    requires { served < REQUEST_LIMIT }
    ensures { result ≡ spec.closes_after served head.now }
{
    let last = served + 1 == REQUEST_LIMIT;
    is_last(head) || last
}

/// Whether a head says that its request is the last.
fn is_last(head: &RequestHead) -> bool
    ensures { result ≡ (not (spec.is_persistent head.now.version) || list_any steps.lists_close (map named_value head.now.fields)) }
{
    match head.version {
        Version::Http10 => true,
        Version::Http11 => asks_to_close(head.fields.as_slice()),
    }
}

/// Whether a field Connection lists `close`.
fn asks_to_close(fields: &[Field]) -> bool
    ensures { result ≡ list_any steps.lists_close (map named_value fields.now) }
{
    fields.iter().any(|field| lists_close(field))
}

/// Whether it is a field Connection that lists `close`.
fn lists_close(field: &Field) -> bool
    ensures { result ≡ steps.lists_close (named_value field.now) }
{
    field.has_name(b"connection") && has_close(field.value.as_slice())
}

/// Whether a member of the list is `close`.
fn has_close(list: &[u8]) -> bool
    ensures { result ≡ list_any (λ member. bytes_eq (lowered member) (codes "close")) (members list.now) }
{
    let mut rest = list;
    'members: loop {
        let (member, behind) = split_member(rest);
        let closes = is_close(member);
        match behind {
            Some(others) => {
                if closes {
                    return true;
                }
                rest = others;
            }
            None => return closes,
        }
    }
}

/// Whether the member is `close`, ASCII case ignored.
fn is_close(member: &[u8]) -> bool
    ensures { result ≡ bytes_eq (lowered member.now) (codes "close") }
{
    member.eq_ignore_ascii_case(b"close")
}

/// Whether the client waits for an answer before it sends the body (RFC 9110, section 10.1.1).
fn expects_answer(head: &RequestHead) -> bool
    ensures { result ≡ list_any steps.is_expectation (map named_value head.now.fields) }
{
    has_expectation(head.fields.as_slice())
}

/// Whether one of the fields is Expect with the value `100-continue`.
fn has_expectation(fields: &[Field]) -> bool
    ensures { result ≡ list_any steps.is_expectation (map named_value fields.now) }
{
    fields.iter().any(|field| is_expectation(field))
}

/// Whether it is a field Expect with the value `100-continue`, ASCII case ignored.
fn is_expectation(field: &Field) -> bool
    ensures { result ≡ steps.is_expectation (named_value field.now) }
{
    field.has_name(b"expect") && field.value.as_slice().eq_ignore_ascii_case(b"100-continue")
}

/// Whether a head that is aimed somewhere asks to be told that its body is awaited.
pub fn asks_to_go_on(head: &RequestHead) -> bool
    ensures { result ≡ steps.waits_for_answer head.now }
{
    tells_body(head) && is_persistent(head.version) && expects_answer(head)
}

/// Whether a head tells of a body, within the limit.
fn tells_body(head: &RequestHead) -> bool
    ensures { result ≡ spec.tells_body (told_by_request head.now) }
{
    match request_framing_of(head) {
        Ok(Framing::Empty) => false,
        Ok(Framing::Length(len)) => len <= BODY_LIMIT,
        Ok(Framing::Chunked) => true,
        Ok(Framing::ToEnd) => true,
        Err(_) => false,
    }
}

/// Whether the version has many requests a connection (RFC 9112, section 9.3).
fn is_persistent(version: Version) -> bool
    ensures { result ≡ spec.is_persistent version }
{
    match version {
        Version::Http10 => false,
        Version::Http11 => true,
    }
}
