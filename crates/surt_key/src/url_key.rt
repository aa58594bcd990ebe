//! The key of a URL.
ghost use Rattle.std.specs.Prelude.{◌≡◌, ◌++◌, ℕ, List, codes, None, Some, Err, IfOk, OnOk, option_copied};
ghost use Rattle.url.specs.Parts.{nonempty_host};
ghost use Rattle.capture.specs.Target.{IsAcceptedAs};
ghost use Rattle.surt_key.specs.Key as spec;
ghost use Rattle.surt_key.specs.Key.{host_text_of, sorted_query, surt_key};

use crate::host_labels::reversed_labels;
use crate::pieces::{lower, put_joined, put_lowered, sort, split};
use crate::{Key, KeyFault};
use capture::{Memory, put_all};
use std::alloc::Global;
use url::{ParseError, Position, Url};

/// The key of a text that is a URL of ASCII with the scheme http or https, and `NotHttp` of every other text.
///
/// It is made of the URL as the URL Standard parses it: the labels of the domain in reverse, joined by commas, without
/// one final dot and without a first label `www` where two or more remain, or the IP address as it is; `:` and the port
/// where it isn't the scheme's default; `)`; the path, lowered; and, unless the query is empty, `?` and the parts of
/// the lowered query between `&`, sorted by bytes and joined by `&`.
pub fn key_of(alloc: Global, uri: &[u8]) -> Result<Key, KeyFault>
    ensures key { IfOk result (λ key. spec.key_of uri.now ≡ Some key) }
    ensures not_http { result ≡ Err KeyFault.NotHttp → spec.key_of uri.now ≡ None }
{
    if !uri.is_ascii() {
        return Err(KeyFault::NotHttp);
    }
    let Ok(text) = std::str::from_utf8(uri) else {
        return Err(KeyFault::NotHttp);
    };
    match Url::parse(alloc, text) {
        Ok(url) if is_http(&url) => Ok(key_of_url(alloc, &url)?),
        Ok(_) => Err(KeyFault::NotHttp),
        Err(ParseError::OutOfMemory | ParseError::Overflow) => Err(KeyFault::Memory),
        Err(_) => Err(KeyFault::NotHttp),
    }
}

/// Whether the URL has the scheme `http` or `https`.
fn is_http(url: &Url) -> bool
    ensures { result ≡ spec.is_http url.now }
{
    url.scheme() == "http" || url.scheme() == "https"
}

/// The key of a URL that was parsed, so that nobody parses its text again: the key that `key_of` makes of each target that is
/// accepted as this URL.
pub fn key_of_url(alloc: Global, url: &Url) -> Result<Key, Memory>
    ensures value { IfOk result (λ key. key ≡ surt_key url.now) }
    ensures accepted { (target : List ℕ) → IsAcceptedAs target url.now → IfOk result (λ key. spec.key_of target ≡ Some key) }
{
    let mut out = Vec::with_capacity(alloc, url.as_str().len())?;
    put_host(&mut out, url)?;
    put_all(&mut out, port_text(url).as_bytes())?;
    out.push(b')')?;
    put_lowered(&mut out, url.path().as_bytes())?;
    put_query(&mut out, url.query())?;
    Ok(Key::of(out))
}

/// Puts the labels of a domain between commas, the last one first, or an address as the URL has it.
fn put_host(out: &mut Vec<u8>, url: &Url) -> Result<(), Memory>
    ensures { OnOk result (out.new.items ≡ out.old.items ++ host_text_of (nonempty_host url.now)) }
{
    if let Some(domain) = url.domain() {
        let labels = reversed_labels(*out.allocator(), domain.as_bytes())?;
        return put_joined(out, labels.as_slice(), b',');
    }
    match url.host_str() {
        Some(address) => put_all(out, address.as_bytes()),
        None => Ok(()),
    }
}

/// `:` and the port, unless it is the scheme's default.
fn port_text(url: &Url) -> &str
    ensures { result.now ≡ spec.port_text url.now.port }
{
    url.slice(Position::AfterHost, Position::AfterPort)
}

/// Puts `?` and the parts of the query, and nothing where there is none or an empty one.
fn put_query(out: &mut Vec<u8>, query: Option<&str>) -> Result<(), Memory>
    ensures { OnOk result (out.new.items ≡ out.old.items ++ spec.query_text (option_copied query.entry)) }
{
    match query {
        Some(query) if !query.is_empty() => put_parts(out, query.as_bytes()),
        _ => Ok(()),
    }
}

/// `?` and the parts of the query, lowered and sorted.
fn put_parts(out: &mut Vec<u8>, query: &[u8]) -> Result<(), Memory>
    ensures { OnOk result (out.new.items ≡ out.old.items ++ codes "?" ++ sorted_query query.now) }
{
    let lowered = lower(*out.allocator(), query)?;
    let mut parts = split(*out.allocator(), lowered.as_slice(), b'&')?;
    sort(&mut parts);
    out.push(b'?')?;
    put_joined(out, parts.as_slice(), b'&')
}
