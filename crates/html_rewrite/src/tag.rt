//! Reading a start tag.
ghost use Rattle.std.specs.Prelude.{◌≡◌, ◌<◌, ◌≤◌, length, take, drop, not, IfOk, OnOk, MatchBool};
ghost use Rattle.std.specs.List.{prefix_len};
ghost use Rattle.html_rewrite.specs.declared.opening.Opening.TheVariants.{StartTag};
ghost use Rattle.html_rewrite.specs.Bytes as bytes_spec;
ghost use Rattle.html_rewrite.specs.Split.{opening_at};
ghost use Rattle.html_rewrite.specs.steps.Reading as spec;
ghost use Rattle.html_rewrite.specs.steps.Reading.{BeginsAttribute, HasInside, LacksInside, LeadsOn, Reads, ReadsInside, ReadsParts, link_by};

use crate::attribute::{Found, Next, attribute_name, found_at, next_at};
use crate::bytes::name_len;
use crate::link::Links;
use crate::names::is_link;
use crate::raw_text::raw_text_len;
use crate::rewriter::Rewriter;
use capture::Memory;

impl<'a> Rewriter<'a> {
    /// Reads a start tag and the text behind it that no tag begins in, or all of a page that ends before the tag does.
    pub fn tag(&mut self, links: &Links) -> Result<(), Memory>
        requires { opening_at (spec.ahead self.old) ≡ StartTag }
        ensures { OnOk result (ReadsParts links.now.limit (link_by links.now) self.old self.new) }
    {
        let element = element_name(self.ahead());
        self.pass(1 + element.len());
        if !self.has_inside(links, element)? {
            let rest = self.ahead();
            self.pass(rest.len());
            return Ok(());
        }
        if !self.attributes(links, element)? {
            unreachable!();
        }
        self.pass(raw_text_len(element, self.ahead()));
        Ok(())
    }

    /// Whether the inside of this element's tag ends before the page does. It is looked through before any link in it is
    /// replaced, since all of a tag without its end stays.
    fn has_inside(&self, links: &Links, element: &[u8]) -> Result<bool, Memory>
        ensures { IfOk result (λ whole. MatchBool whole (HasInside (spec.ahead self.now)) (LacksInside (spec.ahead self.now))) }
    {
        let mut looking = Rewriter::looking(*links.prefix.allocator(), self.ahead());
        looking.attributes(links, element)
    }

    /// Reads the attributes of this element and the tag's end, if the page has it.
    fn attributes(&mut self, links: &Links, element: &[u8]) -> Result<bool, Memory>
        ensures { IfOk result (λ whole. MatchBool whole (ReadsInside links.now.limit (link_by links.now) element.now self.old self.new) (LacksInside (spec.ahead self.old))) }
    {
        'attributes: loop {
            match next_at(self.ahead()) {
                Next::PageEnd => return Ok(false),
                Next::Close(len) => {
                    self.pass(len);
                    return Ok(true);
                }
                Next::AnAttribute(gap) => {
                    if !self.attribute(links, element, gap)? {
                        return Ok(false);
                    }
                }
            }
        }
    }

    /// Reads an attribute behind so many blanks and slashes, if the page has the end of its value.
    fn attribute(&mut self, links: &Links, element: &[u8], gap: usize) -> Result<bool, Memory>
        requires { BeginsAttribute (spec.ahead self.old) gap }
        ensures { IfOk result (λ whole. MatchBool whole (LeadsOn links.now.limit (link_by links.now) element.now self.old self.new) (LacksInside (spec.ahead self.old))) }
    {
        self.pass(gap);
        let name = attribute_name(self.ahead());
        self.pass(name.len());
        match found_at(self.ahead()) {
            Found::Missing => Ok(true),
            Found::Unclosed => Ok(false),
            Found::Value { lead, len, closing } => {
                self.pass(lead);
                self.value(links, element, name, len)?;
                self.pass(closing);
                Ok(true)
            }
        }
    }

    /// Reads a value of so many bytes of this element's attribute.
    fn value(
        &mut self,
        links: &Links,
        element: &[u8],
        attribute: &[u8],
        len: usize,
    ) -> Result<(), Memory>
        requires { len ≤ length (spec.ahead self.old) }
        ensures { OnOk result (Reads links.now.limit (link_by links.now) element.now attribute.now len self.old self.new) }
    {
        if !self.written.fits {
            self.pass(len);
            return Ok(());
        }
        if is_link(element, attribute) {
            return self.link(links, len);
        }
        self.pass(len);
        Ok(())
    }
}

/// The name of the element whose start tag the text begins with.
fn element_name(text: &[u8]) -> &[u8]
    requires { 0 < length text.now }
    ensures { result.now ≡ take (prefix_len (λ b. not (bytes_spec.is_name_end b)) (drop 1 text.now)) (drop 1 text.now) }
{
    let (_, text) = text.split_at(1);
    let (name, _) = text.split_at(name_len(text));
    name
}
