//! Joining a reference to an address with a long path, at the cost of what it keeps of that path.
ghost use Rattle.std.specs.Prelude.{◌≡◌, ◌==◌, ◌≤◌, ◌++◌, ◌⊎◌, length, codes, true, Some, IfOk, option_copied, option_map};
ghost use Rattle.std.specs.List.{repeat};
ghost use Rattle.url.specs.Parser.{with_path};
ghost use Rattle.url.specs.Parts.{serialize};
ghost use Rattle.html_rewrite.specs.Bytes.{begins, slash};
ghost use Rattle.html_rewrite.specs.Links.{target_from};
ghost use Rattle.html_rewrite.specs.steps.Paths as spec;
ghost use Rattle.html_rewrite.specs.steps.Paths.{IsOutline, IsOutlined, IsRooted};

use crate::link::{is_http, target_from};
use capture::{Bytes, Memory};
use std::alloc::Global;
use url::{Position, Url};

/// How long a path is at least that others take the place of: 1 KiB.
const LONG_PATH: usize = 1_024;

/// Two addresses that are the page's own but for their paths, which have a segment for each of its path's.
///
/// Which of these segments a reference keeps depends on how many there are, not on what they are. So it is joined to both addresses, at the
/// cost of what it says and keeps: the results differ by one byte for each segment that it keeps, and these are copied from the page's
/// address.
#[derive(Drop)]
pub struct Outline {
    /// The address with empty segments.
    pub bare: Url,
    /// The address with segments of one letter.
    pub lettered: Url,
}

/// The outline of the page's own address, where that has a long path.
pub fn outline_of(alloc: Global, base: Option<&Url>) -> Result<Option<Outline>, Memory>
    ensures { IfOk result (λ outline. IsOutlined (option_copied base.entry) outline) }
{
    match base {
        Some(base) if is_long(base) => Ok(Some(outline_at(alloc, base)?)),
        _ => Ok(None),
    }
}

/// The outline of this address.
fn outline_at(alloc: Global, base: &Url) -> Result<Outline, Memory>
    requires { IsRooted base.now }
    ensures { IfOk result (IsOutline base.now) }
{
    let bare = with_segments(alloc, base, "/")?;
    let lettered = with_segments(alloc, base, "/a")?;
    Ok(Outline { bare, lettered })
}

/// Whether it is an address of the web with a long path.
fn is_long(base: &Url) -> bool
    ensures { result ≡ true → IsRooted base.now }
{
    let path = base.path().as_bytes();
    path.len() >= LONG_PATH && begins_with_slash(path) && base.has_authority() && is_http(base)
}

/// Whether the path's first byte is a slash.
fn begins_with_slash(path: &[u8]) -> bool
    ensures { result ≡ begins (λ b. b == slash) path.now }
{
    match path {
        [] => false,
        [first, ..] => *first == b'/',
    }
}

/// The address with a path of such segments, as many as its own path has slashes.
fn with_segments(alloc: Global, base: &Url, segment: &str) -> Result<Url, Memory>
    requires rooted { IsRooted base.now }
    requires segment { (segment.now ≡ codes "/") ⊎ (segment.now ≡ codes "/a") }
    ensures { IfOk result (λ url. url ≡ spec.with_segments segment.now base.now) }
{
    let path = segment.repeat(alloc, slash_count(base.path().as_bytes()))?;
    let mut url = base.clone()?;
    match url.set_path(path.as_str()) {
        Ok(()) => Ok(url),
        Err(_) => Err(Memory),
    }
}

/// How many slashes the path has.
fn slash_count(path: &[u8]) -> usize
    ensures { result ≡ spec.slashes path.now }
{
    let mut count = 0;
    let mut rest = path;
    'bytes: while let Some((first, others)) = rest.split_first() {
        count += slash_one(*first);
        rest = others;
    }
    count
}

/// 1 for a slash, and else 0.
fn slash_one(byte: u8) -> usize
    ensures value { result ≡ spec.slash_one byte }
    ensures most { result ≤ 1 }
{
    if byte == b'/' { 1 } else { 0 }
}

impl Outline {
    /// The text of what a reference leads to from the address `base`, if that is http or https.
    pub fn address_from(
        &self,
        alloc: Global,
        base: &Url,
        reference: &str,
    ) -> Result<Option<Bytes>, Memory>
        requires { IsOutline base.now self.now }
        ensures { IfOk result (λ address. address ≡ option_map serialize (target_from (Some base.now) reference.now)) }
    {
        let longer = len_from(&self.lettered, reference)?;
        match target_from(Some(&self.bare), reference)? {
            Some(url) => {
                let kept = longer - url.as_str().len();
                Ok(Some(put_back(alloc, base.path().as_bytes(), &url, kept)?))
            }
            None => Ok(None),
        }
    }
}

/// How long the text is of what a reference leads to from this address, if that is http or https, and else 0.
fn len_from(base: &Url, reference: &str) -> Result<usize, Memory>
    ensures { IfOk result (λ len. len ≡ spec.len_of (target_from (Some base.now) reference.now)) }
{
    match target_from(Some(base), reference)? {
        Some(url) => Ok(url.as_str().len()),
        None => Ok(0),
    }
}

/// The text of the URL, in which so many segments of this path take the place of as many bytes of its own.
fn put_back(alloc: Global, path: &[u8], url: &Url, kept: usize) -> Result<Bytes, Memory>
    requires { kept ≤ length url.now.path }
    ensures { IfOk result (λ address. address ≡ spec.put_back path.now url.now kept) }
{
    let (head, rest) = url
        .as_str()
        .as_bytes()
        .split_at(url.index(Position::BeforePath));
    let (_, tail) = rest.split_at(kept);
    let (front, _) = path.split_at(front_len(path, kept));
    join(alloc, head, front, tail)
}

/// The three texts in one.
fn join(alloc: Global, head: &[u8], front: &[u8], tail: &[u8]) -> Result<Bytes, Memory>
    ensures { IfOk result (λ text. text ≡ head.now ++ front.now ++ tail.now) }
{
    let mut text = Vec::with_capacity(
        alloc,
        head.len()
            .saturating_add(front.len())
            .saturating_add(tail.len()),
    )?;
    text.extend_from_slice(head)?;
    text.extend_from_slice(front)?;
    text.extend_from_slice(tail)?;
    Ok(Bytes::of(text))
}

/// How long the front of the path is that has so many slashes.
fn front_len(path: &[u8], slashes: usize) -> usize
    ensures within { result ≤ length path.now }
    ensures front { result ≡ length (spec.front_with slashes path.now) }
{
    let mut left = slashes;
    let mut rest = path;
    'bytes: while let Some((first, others)) = rest.split_first() {
        if *first == b'/' {
            if left == 0 {
                return path.len() - rest.len();
            }
            left -= 1;
        }
        rest = others;
    }
    path.len()
}
