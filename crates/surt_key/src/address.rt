//! The key of what an address asks for.
ghost use Rattle.std.specs.Prelude.{◌≡◌, length, take, Err, None, Some, IfOk};
ghost use Rattle.std.specs.Str.{str_eq_ignore_ascii_case};
ghost use Rattle.surt_key.specs.Addresses as spec;
ghost use Rattle.surt_key.specs.Addresses.{url_of};
ghost use Rattle.surt_key.specs.Key.{key_of as the_key_of};

use crate::{Key, KeyFault, key_of};
use capture::{Memory, Text};
use std::alloc::Global;

/// A URL with its look-up key.
#[derive(Drop)]
pub struct KeyedUrl {
    /// The URL, with its scheme.
    pub url: Text,
    /// The key of that URL.
    pub key: Key,
}

/// The URL that an address asks for, with its key, and `NotHttp` where it has none.
///
/// It is the text, with `http://` before it where it begins with neither `http://` nor `https://` in whatever case.
pub fn key_of_address(alloc: Global, text: &[u8]) -> Result<KeyedUrl, KeyFault>
    ensures url { IfOk result (λ keyed. keyed.url ≡ url_of text.now) }
    ensures key { IfOk result (λ keyed. the_key_of keyed.url ≡ Some keyed.key) }
    ensures not_http { result ≡ Err KeyFault.NotHttp → the_key_of (url_of text.now) ≡ None }
{
    let url = with_scheme(alloc, text)?;
    let key = key_of(alloc, url.as_slice())?;
    match Text::of(url) {
        Some(url) => Ok(KeyedUrl { url, key }),
        None => Err(KeyFault::NotHttp),
    }
}

/// The text, with a scheme before it where it has none.
fn with_scheme(alloc: Global, text: &[u8]) -> Result<Vec<u8>, Memory>
    ensures { IfOk result (λ url. url.items ≡ url_of text.now) }
{
    if has_scheme(text) {
        return Ok(Vec::from_slice(alloc, text)?);
    }
    let mut url = Vec::with_capacity(alloc, text.len().saturating_add(HTTP.len()))?;
    url.extend_from_slice(HTTP)?;
    url.extend_from_slice(text)?;
    Ok(url)
}

/// The scheme of a text that has none.
const HTTP: &[u8] = b"http://";

/// Whether the text begins with a scheme of the web, in whatever case.
fn has_scheme(text: &[u8]) -> bool
    ensures { result ≡ spec.has_scheme text.now }
{
    begins_with_scheme(text, b"http://") || begins_with_scheme(text, b"https://")
}

/// Whether the text begins with this scheme, in whatever case.
fn begins_with_scheme(text: &[u8], scheme: &[u8]) -> bool
    ensures { result ≡ str_eq_ignore_ascii_case (take (length scheme.now) text.now) scheme.now }
{
    let (front, _) = text.split_at(scheme.len().min(text.len()));
    is_same_text(front, scheme)
}

/// Whether the texts are one but for case.
fn is_same_text(front: &[u8], scheme: &[u8]) -> bool
    ensures { result ≡ str_eq_ignore_ascii_case front.now scheme.now }
{
    front.eq_ignore_ascii_case(scheme)
}
