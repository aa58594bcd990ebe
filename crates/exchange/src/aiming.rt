//! Where a request is aimed (RFC 9112, section 3.2).
ghost use Rattle.std.specs.Prelude.{◌≡◌, ◌≤◌, ◌++◌, length, codes, Ok, IfOk, IsAscii};
ghost use Rattle.capture.specs.Target as target_spec;
ghost use Rattle.capture.specs.Target.{IsAcceptedAs};
ghost use Rattle.exchange.specs.Aim as spec;
ghost use Rattle.exchange.specs.Aim.{HasShortHost, IsAim};

use crate::aim::{Aim, AimFault, HTTP_PORT, Target};
use capture::{Memory, Site, Text, accepted_url, authority_len, is_target_text};
use http_head::RequestHead;
use std::alloc::Global;
use url::Url;

/// The length of `http://`.
const SCHEME_LEN: usize = 7;

/// The greatest length of a host in bytes.
const HOST_LIMIT: usize = 4_294_967_295;

/// Where the request goes: to an origin, where its target is an `http` URL that is accepted; to the site, where
/// it is one of the site's host and port, or begins with a slash.
pub fn aim_of(alloc: Global, head: &RequestHead, site: &Site) -> Result<Aim, AimFault>
    ensures aim { IsAim (spec.aim_of site.now head.now.method head.now.target) result }
    ensures short { IfOk result HasShortHost }
{
    let method = head.method.as_slice();
    let target = head.target.as_slice();
    if method == b"CONNECT".as_slice() {
        return Err(AimFault::ConnectRefused);
    }
    match accepted_url(alloc, target) {
        Ok(Some(url)) => match aim_of_url(alloc, &url, method, target, site) {
            Ok(aim) => Ok(aim),
            Err(Memory) => Err(AimFault::Memory),
        },
        Ok(None) => aim_of_other(alloc, target),
        Err(Memory) => Err(AimFault::Memory),
    }
}

/// Where an accepted absolute target is aimed, which is this URL.
fn aim_of_url(
    alloc: Global,
    url: &Url,
    method: &[u8],
    target: &[u8],
    site: &Site,
) -> Result<Aim, Memory>
    requires accepted { IsAcceptedAs target.now url.now }
    requires ascii { IsAscii target.now }
    ensures aim { IfOk result (λ aim. spec.aim_of_url site.now method.now target.now (Ok url.now) ≡ Ok aim) }
    ensures short { IfOk result HasShortHost }
{
    let rest = after_authority(target);
    let host = host_of(url);
    let port = url.port().unwrap_or(HTTP_PORT);
    if host == site.host.as_str() && port == site.port {
        return Ok(Aim::Site(ascii_text(alloc, rest)?));
    }
    // No URL has such a host, since its places have 32 bits: what holds one is read as wanting memory.
    if host.len() > HOST_LIMIT {
        return Err(Memory);
    }
    Ok(Aim::Origin(Target {
        uri: ascii_text(alloc, target)?,
        host: Text::from_str(alloc, host)?,
        port,
        path: origin_form(alloc, method, rest)?,
    }))
}

/// Where a target is aimed that is no accepted absolute one.
fn aim_of_other(alloc: Global, target: &[u8]) -> Result<Aim, AimFault>
    ensures aim { IsAim (spec.aim_of_other target.now) result }
    ensures short { IfOk result HasShortHost }
{
    if !is_target_text(target) {
        return Err(AimFault::TargetRefused);
    }
    if target.starts_with(b"/") {
        return match ascii_text(alloc, target) {
            Ok(path) => Ok(Aim::Site(path)),
            Err(Memory) => Err(AimFault::Memory),
        };
    }
    if target.starts_with(b"https://") {
        return Err(AimFault::SecureRefused);
    }
    Err(AimFault::TargetRefused)
}

/// What follows the authority of an accepted absolute target.
fn after_authority(target: &[u8]) -> &[u8]
    requires { SCHEME_LEN ≤ length target.now }
    ensures { result.now ≡ target_spec.after_authority target.now }
{
    let (_, rest) = target.split_at(SCHEME_LEN);
    let (_, path) = rest.split_at(authority_len(rest));
    path
}

/// The host that is dialed for a URL, an IPv6 address in brackets. It is empty where the URL has none.
pub fn host_of(url: &Url) -> &str
    ensures { result.now ≡ target_spec.host_of url.now }
{
    match url.host_str() {
        Some(host) => host,
        None => "",
    }
}

/// The target that the origin gets, of what follows the authority (RFC 9112, sections 3.2.1 and 3.2.4).
fn origin_form(alloc: Global, method: &[u8], rest: &[u8]) -> Result<Text, Memory>
    requires { IsAscii rest.now }
    ensures { IfOk result (λ path. path ≡ target_spec.origin_form method.now rest.now) }
{
    match rest {
        [] if method == b"OPTIONS".as_slice() => ascii_text(alloc, b"*"),
        [] => ascii_text(alloc, b"/"),
        [b'?', ..] => behind_slash(alloc, rest),
        _ => ascii_text(alloc, rest),
    }
}

/// The bytes behind a slash, which an origin-form target begins with (RFC 9112, section 3.2.1).
fn behind_slash(alloc: Global, rest: &[u8]) -> Result<Text, Memory>
    requires { IsAscii rest.now }
    ensures { IfOk result (λ path. path ≡ codes "/" ++ rest.now) }
{
    let mut path = Vec::from_slice(alloc, b"/")?;
    path.extend_from_slice(rest)?;
    Ok(Text::of(path).unwrap())
}

/// The bytes as a text of their own.
fn ascii_text(alloc: Global, bytes: &[u8]) -> Result<Text, Memory>
    requires { IsAscii bytes.now }
    ensures { IfOk result (λ text. text ≡ bytes.now) }
{
    Ok(Text::of(Vec::from_slice(alloc, bytes)?).unwrap())
}
