//! What braces in a text may name.
use std::alloc::{AllocError, Global};

/// A text that a file names.
#[derive(Drop)]
pub struct NamedText {
    name: String,
    text: Vec<u8>,
}

impl NamedText {
    /// The text, under a copy of the name.
    pub fn new(alloc: Global, name: &str, text: Vec<u8>) -> Result<NamedText, AllocError> {
        Ok(NamedText {
            name: String::from_str(alloc, name)?,
            text,
        })
    }
}

/// The number for which a case is played, and the texts that its file names.
#[derive(Clone, Copy)]
pub struct Names<'a> {
    /// The number for which the case is played.
    pub k: u64,
    /// The texts that stand before the case in its file.
    pub texts: &'a [NamedText],
}

impl<'a> Names<'a> {
    /// The text of a name. `None` where the file names none so.
    pub fn text_of(&self, name: &str) -> Option<&'a [u8]> {
        for named in self.texts {
            if named.name.as_str() == name {
                return Some(named.text.as_slice());
            }
        }
        None
    }
}
