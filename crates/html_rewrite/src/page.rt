//! Rewriting a page.
ghost use Rattle.std.specs.Prelude.{◌<◌, length, IfOk, OnOk};
ghost use Rattle.time_text.specs.Texts.{InRange};
ghost use Rattle.html_rewrite.specs.Links.{archive_prefix, link, page_url};
ghost use Rattle.html_rewrite.specs.steps.Reading as spec;
ghost use Rattle.html_rewrite.specs.steps.Reading.{ReadsParts, link_by};
ghost use Rattle.html_rewrite.specs.Rewritten.{IsRewritten};

use crate::bytes::plain_len;
use crate::link::Links;
use crate::opening::{Opening, opening_at};
use crate::rewriter::Rewriter;
use crate::through::through_len;
use capture::{Bytes, Memory, Site};
use std::alloc::Global;

/// How many bytes a rewritten page has at most.
pub const PAGE_LIMIT: usize = 268_435_456;

/// The page that was captured from the address `base` at `time` (in milliseconds since 1970), with each link replaced
/// by the address of its target in the archive at that time; `None` where that would be longer than `PAGE_LIMIT`.
///
/// Links are the values of those attributes of start tags that hold an address. A value is read with each `&amp;` as
/// `&`, and joined to `base` by the URL Standard. It stays as it is where it is empty or begins with `#`, isn't UTF-8,
/// doesn't join, or doesn't lead to http or https. Every byte outside a replaced value stays.
pub fn rewrite(
    alloc: Global,
    page: &[u8],
    base: &[u8],
    time: u64,
    site: &Site,
) -> Result<Option<Bytes>, Memory>
    requires { InRange time }
    ensures { IfOk result (λ rewritten. IsRewritten PAGE_LIMIT (link (archive_prefix site.now.base time) (page_url base.now)) page.now rewritten) }
{
    let links = Links::new(alloc, base, time, site, PAGE_LIMIT)?;
    rewrite_by(alloc, page, &links)
}

/// The same, for these links and their limit. What is written is all the memory that it takes, beside that for one link.
pub fn rewrite_by(alloc: Global, page: &[u8], links: &Links) -> Result<Option<Bytes>, Memory>
    ensures { IfOk result (λ rewritten. IsRewritten links.now.limit (link_by links.now) page.now rewritten) }
{
    let mut rewriter = Rewriter::new(alloc, page, links.limit)?;
    'reading: while !rewriter.is_done() {
        rewriter.parts(links)?;
    }
    rewriter.finish(links.limit)
}

impl Rewriter<'_> {
    /// Reads what opens here, or all bytes up to the next place where something may open.
    fn parts(&mut self, links: &Links) -> Result<(), Memory>
        requires { 0 < length (spec.ahead self.old) }
        ensures { OnOk result (ReadsParts links.now.limit (link_by links.now) self.old self.new) }
    {
        let ahead = self.ahead();
        match opening_at(ahead) {
            Opening::Comment => self.pass(through_len(ahead, 4, b"-->")),
            Opening::Declaration => self.pass(through_len(ahead, 2, b">")),
            Opening::EndTag => self.pass(through_len(ahead, 2, b">")),
            Opening::StartTag => return self.tag(links),
            Opening::Other => self.pass(plain_len(ahead)),
        }
        Ok(())
    }
}
