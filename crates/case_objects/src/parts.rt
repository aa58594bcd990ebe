//! The parts of a call's text, between which stands `;`.
ghost use Rattle.std.specs.Prelude.{◌<◌, IfSome};

use capture::{Failed, Memory, put_all, put_number};
use case_language::{number_in, split_word};

/// The first word of a part, and what follows the space behind it.
pub fn word_of(part: &[u8]) -> Option<(&str, &[u8])> {
    match split_word(part) {
        Some(found) => Some(found),
        None => match str::from_utf8(part) {
            Ok(word) => Some((word, b"")),
            Err(_) => None,
        },
    }
}

/// A number that isn't 0.
pub fn amount_in(text: &[u8]) -> Option<usize>
    ensures { IfSome result (λ amount. 0 < amount) }
{
    match number_in(text) {
        Some(number) if number > 0 => Some(number as usize),
        _ => None,
    }
}

/// Puts an answer, behind `; ` where something stands before it.
pub fn put_answer(out: &mut Vec<u8>, answer: &[u8]) -> Result<(), Memory> {
    if !out.is_empty() {
        put_all(out, b"; ")?;
    }
    put_all(out, answer)
}

/// Puts an answer that is a word and a text.
pub fn put_with(out: &mut Vec<u8>, word: &[u8], text: &[u8]) -> Result<(), Memory> {
    put_answer(out, word)?;
    put_all(out, text)
}

/// Puts `wrote` and how many bytes were taken, or `Failed`.
pub fn put_wrote(out: &mut Vec<u8>, wrote: Result<usize, Failed>) -> Result<(), Memory> {
    match wrote {
        Ok(count) => {
            put_answer(out, b"wrote ")?;
            put_number(out, count as u64)
        }
        Err(Failed) => put_answer(out, b"Failed"),
    }
}
