//! What an object in memory is made with.
use crate::parts::{amount_in, word_of};
use capture::Memory;
use case_language::number_in;
use case_texts::told;
use std::alloc::Global;

/// What the parts of a call's text say of the object.
#[derive(Drop)]
pub struct Given {
    /// `gives TEXT`: what its links give, one behind the other.
    pub texts: Vec<Vec<u8>>,
    /// `pieces N`: how many bytes a call of a link moves at most.
    pub most: usize,
    /// `fails N N`: the numbers of the calls that fail, from 0.
    pub fails: Vec<u64>,
    /// `breaks N N`: the numbers of the calls of each link that a dialer or a gate gives which fail.
    pub breaks: Vec<u64>,
}

impl Given {
    /// What the parts say. `None` where one says something that isn't there.
    pub fn of(alloc: Global, text: &[u8]) -> Result<Option<Given>, Memory> {
        let mut given = Given {
            texts: Vec::new(alloc),
            most: usize::MAX,
            fails: Vec::new(alloc),
            breaks: Vec::new(alloc),
        };
        match given.take_all(alloc, text) {
            Ok(true) => Ok(Some(given)),
            Ok(false) => Ok(None),
            Err(Memory) => Err(Memory),
        }
    }

    /// Takes the parts, up to the first that says something that isn't there.
    fn take_all(&mut self, alloc: Global, text: &[u8]) -> Result<bool, Memory> {
        for part in text.split(|byte| *byte == b';') {
            if !self.take(alloc, part)? {
                return Ok(false);
            }
        }
        Ok(true)
    }

    /// Takes a part. One of another word is a step, and is passed over.
    fn take(&mut self, alloc: Global, part: &[u8]) -> Result<bool, Memory> {
        let Some((word, rest)) = word_of(part) else {
            return Ok(false);
        };
        match word {
            "gives" => {
                let text = told(alloc, rest)?;
                self.texts.push(text)?;
                Ok(true)
            }
            "pieces" => Ok(self.take_most(rest)),
            "fails" => take_numbers(&mut self.fails, rest),
            "breaks" => take_numbers(&mut self.breaks, rest),
            _ => Ok(true),
        }
    }

    fn take_most(&mut self, text: &[u8]) -> bool {
        match amount_in(text) {
            Some(most) => {
                self.most = most;
                true
            }
            None => false,
        }
    }
}

/// Adds the numbers of a part, between which stands a space, to a list.
fn take_numbers(list: &mut Vec<u64>, text: &[u8]) -> Result<bool, Memory> {
    for word in text.split(|byte| *byte == b' ') {
        match number_in(word) {
            Some(number) => list.push(number)?,
            None => return Ok(false),
        }
    }
    Ok(true)
}

/// Whether a part with this word says what the object is made with.
pub fn is_given(word: &str) -> bool {
    match word {
        "gives" => true,
        "pieces" => true,
        "fails" => true,
        "breaks" => true,
        _ => false,
    }
}
