//! What the links of a page are replaced by.
ghost use Rattle.std.specs.Prelude.{◌≡◌, ◌++◌, IfOk, OnOk, option_copied, option_map};
ghost use Rattle.time_text.specs.Texts.{InRange};
ghost use Rattle.url.specs.Parts.{serialize};
ghost use Rattle.html_rewrite.specs.Links as spec;
ghost use Rattle.html_rewrite.specs.steps.Paths.{IsOutlined};

use crate::outline::{Outline, outline_of};
use crate::reference::{decode, escaped_len, put_escaped};
use crate::room::make_room;
use capture::{Bytes, Memory, Site};
use memchr::memchr;
use std::alloc::Global;
use time_text::write_time;
use url::{ParseError, Url};

/// What the links of a page lead to, and how long that may make the page.
#[derive(Drop)]
pub struct Links {
    /// What stands before the address of a target.
    pub prefix: Vec<u8>,
    /// The page's own address, if that is a URL.
    pub base: Option<Url>,
    /// What references are joined to in place of that address, where its path is long.
    pub outline: Option<Outline>,
    /// How many bytes the page with its links replaced has at most.
    pub limit: usize,
    ghost outlined: { IsOutlined base outline },
}

impl Links {
    /// The links of a page that was captured from this address at this time.
    pub fn new(
        alloc: Global,
        base: &[u8],
        time: u64,
        site: &Site,
        limit: usize,
    ) -> Result<Links, Memory>
        requires { InRange time }
        ensures prefix { IfOk result (λ links. links.prefix.items ≡ spec.archive_prefix site.now.base time) }
        ensures base { IfOk result (λ links. links.base ≡ spec.page_url base.now) }
        ensures limit { IfOk result (λ links. links.limit ≡ limit) }
    {
        let prefix = archive_prefix(alloc, time, site)?;
        let base = page_url(alloc, base)?;
        let outline = outline_of(alloc, base.as_ref())?;
        Ok(Links {
            prefix,
            base,
            outline,
            limit,
        })
    }

    /// Puts what the value is replaced by behind what is written.
    pub fn put(&self, out: &mut Vec<u8>, value: &[u8]) -> Result<(), Memory>
        ensures { OnOk result (out.new.items ≡ out.old.items ++ spec.link self.now.prefix.items self.now.base value.now) }
    {
        match self.target(*out.allocator(), value)? {
            Some(address) => self.put_address(out, address.as_slice()),
            None => {
                make_room(out, value.len(), self.limit)?;
                out.extend_from_slice(value)?;
                Ok(())
            }
        }
    }

    /// Puts the address in the archive of this target behind what is written.
    fn put_address(&self, out: &mut Vec<u8>, target: &[u8]) -> Result<(), Memory>
        ensures { OnOk result (out.new.items ≡ out.old.items ++ self.now.prefix.items ++ spec.escaped target.now) }
    {
        make_room(
            out,
            self.prefix.len().saturating_add(escaped_len(target)),
            self.limit,
        )?;
        out.extend_from_slice(self.prefix.as_slice())?;
        put_escaped(out, target)
    }

    /// The text of what a value leads to, if it is to be replaced.
    fn target(&self, alloc: Global, value: &[u8]) -> Result<Option<Bytes>, Memory>
        ensures { IfOk result (λ address. address ≡ option_map serialize (spec.target_of self.now.base value.now)) }
    {
        match memchr(b'&', value) {
            Some(_) => {
                let reference = decode(alloc, value)?;
                self.read_target(alloc, reference.as_slice())
            }
            None => self.read_target(alloc, value),
        }
    }

    /// The text of what a value that was read leads to, if it is to be replaced.
    fn read_target(&self, alloc: Global, reference: &[u8]) -> Result<Option<Bytes>, Memory>
        ensures { IfOk result (λ address. address ≡ option_map serialize (spec.target_read self.now.base reference.now)) }
    {
        if begins_as_none(reference) {
            return Ok(None);
        }
        match std::str::from_utf8(reference) {
            Ok(text) => self.address_from(alloc, text),
            Err(_) => Ok(None),
        }
    }

    /// The text of what a reference leads to from the page's own address, if that is http or https.
    fn address_from(&self, alloc: Global, reference: &str) -> Result<Option<Bytes>, Memory>
        ensures { IfOk result (λ address. address ≡ option_map serialize (spec.target_from self.now.base reference.now)) }
    {
        let Some(base) = &self.base else {
            return Ok(None);
        };
        match &self.outline {
            Some(outline) => outline.address_from(alloc, base, reference),
            None => Ok(address_of(target_from(Some(base), reference)?)),
        }
    }
}

/// The text of the URL, if there is one.
fn address_of(url: Option<Url>) -> Option<Bytes>
    ensures { result ≡ option_map serialize url }
{
    match url {
        Some(url) => Some(Bytes::of(String::from(url).into_bytes())),
        None => None,
    }
}

/// Where a reference leads to from the address `base`, by the URL Standard. `None` where one of them isn't UTF-8, `base`
/// is no URL, the reference doesn't join it, or the result is neither http nor https.
pub fn web_target(alloc: Global, base: &[u8], reference: &[u8]) -> Result<Option<Url>, Memory>
    ensures { IfOk result (λ target. target ≡ spec.web_target base.now reference.now) }
{
    let base = page_url(alloc, base)?;
    text_target(base.as_ref(), reference)
}

/// Where a reference leads to, if it is a text.
fn text_target(base: Option<&Url>, reference: &[u8]) -> Result<Option<Url>, Memory>
    ensures { IfOk result (λ target. target ≡ spec.text_target (option_copied base.entry) reference.now) }
{
    match std::str::from_utf8(reference) {
        Ok(text) => target_from(base, text),
        Err(_) => Ok(None),
    }
}

/// Whether it is an empty reference, or one to a place in the page itself.
fn begins_as_none(reference: &[u8]) -> bool
    ensures { result ≡ spec.leads_nowhere reference.now }
{
    match reference {
        [] => true,
        [first, ..] => *first == b'#',
    }
}

/// Where a reference leads to from the page's own address, if that is a URL and it leads to http or https.
pub fn target_from(base: Option<&Url>, reference: &str) -> Result<Option<Url>, Memory>
    ensures { IfOk result (λ target. target ≡ spec.target_from (option_copied base.entry) reference.now) }
{
    let Some(base) = base else {
        return Ok(None);
    };
    match base.join(reference) {
        Ok(url) if is_http(&url) => Ok(Some(url)),
        Ok(_) => Ok(None),
        Err(ParseError::OutOfMemory | ParseError::Overflow) => Err(Memory),
        Err(_) => Ok(None),
    }
}

/// Whether the URL has the scheme `http` or `https`.
pub fn is_http(url: &Url) -> bool
    ensures { result ≡ spec.is_http url.now }
{
    url.scheme() == "http" || url.scheme() == "https"
}

/// The URL of the page, if its address is one.
fn page_url(alloc: Global, base: &[u8]) -> Result<Option<Url>, Memory>
    ensures { IfOk result (λ url. url ≡ spec.page_url base.now) }
{
    let Ok(text) = std::str::from_utf8(base) else {
        return Ok(None);
    };
    match Url::parse(alloc, text) {
        Ok(url) => Ok(Some(url)),
        Err(ParseError::OutOfMemory | ParseError::Overflow) => Err(Memory),
        Err(_) => Ok(None),
    }
}

/// What stands before each target's address.
fn archive_prefix(alloc: Global, time: u64, site: &Site) -> Result<Vec<u8>, Memory>
    requires { InRange time }
    ensures { IfOk result (λ prefix. prefix.items ≡ spec.archive_prefix site.now.base time) }
{
    let Ok(digits) = write_time(time) else {
        unreachable!()
    };
    let mut prefix = Vec::new(alloc);
    prefix.extend_from_slice(site.base.as_slice())?;
    prefix.extend_from_slice(b"/web/")?;
    prefix.extend_from_slice(digits.as_slice())?;
    prefix.push(b'/')?;
    Ok(prefix)
}
