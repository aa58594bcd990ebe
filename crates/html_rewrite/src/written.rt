//! Writing a page within its limit.
ghost use Rattle.std.specs.Prelude.{◌≡◌, false, OnOk};
ghost use Rattle.html_rewrite.specs.steps.Reading as spec;
ghost use Rattle.html_rewrite.specs.steps.Reading.{grown, link_by};

use crate::link::Links;
use crate::rewriter::Written;
use crate::room::make_room;
use capture::Memory;

impl Written {
    /// Puts bytes of the page behind what is written, if they are within the limit.
    pub fn put(&mut self, limit: usize, plain: &[u8]) -> Result<(), Memory>
        ensures { OnOk result (spec.text_of self.new ≡ grown limit (spec.text_of self.old) plain.now) }
    {
        if !self.fits {
            return Ok(());
        }
        if self.text.len() + plain.len() > limit {
            self.fits = false;
            return Ok(());
        }
        make_room(&mut self.text, plain.len(), limit)?;
        self.text.extend_from_slice(plain)?;
        Ok(())
    }

    /// Puts what the value is replaced by behind what is written, if that is within the limit.
    pub fn put_link(&mut self, links: &Links, value: &[u8]) -> Result<(), Memory>
        ensures { OnOk result (spec.text_of self.new ≡ grown links.now.limit (spec.text_of self.old) (link_by links.now value.now)) }
    {
        if !self.fits {
            return Ok(());
        }
        links.put(&mut self.text, value)?;
        self.fits = self.text.len() <= links.limit;
        Ok(())
    }
}
