//! Request targets in absolute form.
ghost use Rattle.std.specs.Prelude.{false, ◌≡◌, ◌<◌, ◌≤◌, length, take, drop, IsTrue, IsFalse, IfOk, MatchOption, OnSome, IsAscii};
ghost use Rattle.std.specs.List.{prefix_len};
ghost use Rattle.capture.specs.Target as spec;
ghost use Rattle.capture.specs.Target.{IsAcceptedAs, is_accepted_uri};

use crate::Memory;
use std::alloc::Global;
use url::{ParseError, Url};

const HTTP: &[u8] = b"http://";

/// Whether this is an absolute target that is served: an `http` URL of visible ASCII, with an authority and without
/// a user name or a fragment (RFC 9112, section 3.2.2).
pub fn accepted_uri(alloc: Global, uri: &[u8]) -> Result<bool, Memory>
    ensures { IfOk result (λ accepted. accepted ≡ is_accepted_uri uri.now) }
{
    Ok(accepted_url(alloc, uri)?.is_some())
}

/// The URL of an absolute target that is served, and `None` of every other text.
pub fn accepted_url(alloc: Global, target: &[u8]) -> Result<Option<Url>, Memory>
    ensures value { IfOk result (λ found. MatchOption found (is_accepted_uri target.now ≡ false) (λ url. IsAcceptedAs target.now url)) }
    ensures ascii { IfOk result (λ found. OnSome found (IsAscii target.now)) }
{
    if !is_http_target(target) {
        return Ok(None);
    }
    let Ok(text) = std::str::from_utf8(target) else {
        return Ok(None);
    };
    match Url::parse(alloc, text) {
        Ok(url) => Ok(Some(url)),
        Err(ParseError::OutOfMemory | ParseError::Overflow) => Err(Memory),
        Err(_) => Ok(None),
    }
}

/// Whether this is the text of a target: `http://` and an authority that names a host and no user, in bytes of a target.
fn is_http_target(target: &[u8]) -> bool
    ensures { result ≡ spec.is_http_target target.now }
{
    if !is_target_text(target) || !begins_with_http(target) {
        return false;
    }
    let (_, rest) = target.split_at(HTTP.len());
    let (authority, _) = rest.split_at(authority_len(rest));
    is_plain_authority(authority)
}

/// Whether the scheme is `http`, in any case (RFC 3986, section 3.1).
fn begins_with_http(target: &[u8]) -> bool
    ensures value { result ≡ spec.begins_with_http target.now }
    ensures room { IsTrue result → 7 ≤ length target.now }
{
    if target.len() < HTTP.len() {
        return false;
    }
    let (scheme, _) = target.split_at(HTTP.len());
    scheme.eq_ignore_ascii_case(HTTP)
}

/// Whether each byte is one of a target: a visible one of ASCII, but for those that would break the address of a
/// memento.
pub fn is_target_text(target: &[u8]) -> bool
    ensures { result ≡ spec.is_target_text target.now }
{
    target.iter().all(|b| is_target_byte(*b))
}

/// Whether the byte may stand in a target.
fn is_target_byte(b: u8) -> bool
    ensures { result ≡ spec.is_target_byte b }
{
    b >= 33 && b <= 126 && !b"\"<>\\#".contains(&b)
}

/// Whether the byte may stand in an authority: it isn't one that ends it (RFC 3986, section 3.2).
fn is_authority_byte(b: u8) -> bool
    ensures { result ≡ spec.is_authority_byte b }
{
    !(b == b'/' || b == b'?')
}

/// The length of the authority at the front of what follows `http://`, in bytes: up to the first `/` or `?`
/// (RFC 3986, section 3.2).
pub fn authority_len(rest: &[u8]) -> usize
    ensures value { result ≡ spec.authority_len rest.now }
    ensures within { result ≤ length rest.now }
{
    rest.iter().take_while(|&&b| is_authority_byte(b)).count()
}

/// Whether the authority is one to connect to: not empty, and without user information.
fn is_plain_authority(authority: &[u8]) -> bool
    ensures { result ≡ spec.is_plain_authority authority.now }
{
    !authority.is_empty() && !authority.contains(&b'@')
}
