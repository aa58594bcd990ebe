//! The words of a text that a case gives to a call, one after the other.
use crate::words::{number_in, split_front, split_word};

/// What is left of a text of which words are taken. Behind each of them stands a space, which is taken with it.
#[derive(Clone, Copy)]
pub struct TextWords<'a> {
    pub rest: &'a [u8],
}

impl<'a> TextWords<'a> {
    /// All of a text is left.
    pub fn of(text: &'a [u8]) -> TextWords<'a> {
        TextWords { rest: text }
    }

    /// Takes a word. `None` where no space follows, or the word isn't UTF-8.
    pub fn word(&mut self) -> Option<&'a str> {
        match split_word(self.rest) {
            Some((word, rest)) => {
                self.rest = rest;
                Some(word)
            }
            None => None,
        }
    }

    /// Takes a word of any bytes. `None` where no space follows.
    pub fn bytes(&mut self) -> Option<&'a [u8]> {
        match split_front(self.rest) {
            Some((word, rest)) => {
                self.rest = rest;
                Some(word)
            }
            None => None,
        }
    }

    /// Takes a word that writes a number. `None` where no space follows, or the word is no number.
    pub fn number(&mut self) -> Option<u64> {
        match self.bytes() {
            Some(word) => number_in(word),
            None => None,
        }
    }

    /// The same of a number below 2^32.
    pub fn small_number(&mut self) -> Option<u32> {
        match self.number() {
            Some(number) => u32::try_from(number).ok(),
            None => None,
        }
    }
}
