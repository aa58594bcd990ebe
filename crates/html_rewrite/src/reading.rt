//! The steps of reading a page: bytes that stay as they are, and values.
ghost use Rattle.std.specs.Prelude.{◌≡◌, ◌<◌, ◌≤◌, length, IfOk, OnOk, MatchBool};
ghost use Rattle.html_rewrite.specs.steps.Reading as spec;
ghost use Rattle.html_rewrite.specs.steps.Reading.{IsDone, IsUnread, Passes, ReadsLink, link_by};

use crate::link::Links;
use crate::rewriter::{Rewriter, Written};
use capture::{Bytes, Memory};
use std::alloc::Global;

/// How many bytes the links of a page may add before what is written has to grow: 64 KiB.
const LINKS_ROOM: usize = 65_536;

impl<'a> Rewriter<'a> {
    /// A page of which nothing was read yet.
    pub fn new(alloc: Global, page: &'a [u8], limit: usize) -> Result<Rewriter<'a>, Memory>
        ensures { IfOk result (λ rewriter. IsUnread page.now rewriter) }
    {
        let text = Vec::with_capacity(alloc, page.len().saturating_add(LINKS_ROOM).min(limit))?;
        Ok(Rewriter {
            written: Written { text, fits: true },
            run: page,
            read: 0,
        })
    }

    /// A text that is looked through, and of which nothing is written.
    pub fn looking(alloc: Global, text: &'a [u8]) -> Rewriter<'a>
        ensures { spec.ahead result ≡ text.now }
    {
        Rewriter {
            written: Written {
                text: Vec::new(alloc),
                fits: false,
            },
            run: text,
            read: 0,
        }
    }

    /// What is still to be read.
    pub fn ahead(&self) -> &'a [u8]
        ensures { result.now ≡ spec.ahead self.now }
    {
        let run: &'a [u8] = self.run;
        &run[self.read..]
    }

    /// Whether all was read, or the page is longer than its limit already.
    pub fn is_done(&self) -> bool
        ensures { MatchBool result (IsDone self.now) (0 < length (spec.ahead self.now)) }
    {
        if !self.written.fits {
            return true;
        }
        self.ahead().is_empty()
    }

    /// Reads so many bytes that stay as they are.
    pub fn pass(&mut self, n: usize)
        requires { n ≤ length (spec.ahead self.old) }
        ensures { Passes n self.old self.new }
    {
        self.read += n;
    }

    /// Reads a value of so many bytes that holds a link.
    pub fn link(&mut self, links: &Links, n: usize) -> Result<(), Memory>
        requires { n ≤ length (spec.ahead self.old) }
        ensures { OnOk result (ReadsLink links.now.limit (link_by links.now) n self.old self.new) }
    {
        let (plain, rest) = self.run.split_at(self.read);
        let (value, rest) = rest.split_at(n);
        self.written.put(links.limit, plain)?;
        self.written.put_link(links, value)?;
        self.run = rest;
        self.read = 0;
        Ok(())
    }

    /// The page with its links replaced, once it is done; `None` where that is longer than the limit.
    pub fn finish(self, limit: usize) -> Result<Option<Bytes>, Memory>
        ensures { IfOk result (λ rewritten. rewritten ≡ spec.done limit self.entry) }
    {
        let (plain, _) = self.run.split_at(self.read);
        let mut written = self.written;
        written.put(limit, plain)?;
        if !written.fits {
            return Ok(None);
        }
        Ok(Some(Bytes::of(written.text)))
    }
}
