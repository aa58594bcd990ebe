//! What recorded objects write down of their calls. A text of a fixed size takes no memory and is nothing to drop.
#![tactic(auto)]

use std::fmt::{Display, InlineText};
use std::io;

/// The most bytes of such a text. One that is longer ends in three dots.
const MOST: usize = 1_024;

/// What was called and answered, in that order.
pub type Written = InlineText<{ MOST }>;

/// What is printed of one thing.
pub fn written<D: Display + Drop>(thing: D) -> Written {
    Written::of(thing)
}

/// What was written before, and behind it a word.
pub fn joined(before: Written, word: &str) -> Written {
    before.and_str(word, MOST)
}

/// A call, in a word or two, of what it is about.
pub fn called(call: &str, of: &str) -> Written {
    joined(joined(written(call), " "), of)
}

/// A call with a number behind it.
pub fn numbered(call: &str, number: u64) -> Written {
    written(format_args!("{call} {number}"))
}

/// The word for an answer, and behind it a semicolon.
pub fn answered<E: Drop>(answer: Result<usize, E>) -> Written {
    match answer {
        Ok(n) => written(format_args!("{n};")),
        Err(_) => written("failed;"),
    }
}

/// What was written before, and behind it the word for an answer.
pub fn then<E: Drop>(before: Written, answer: Result<usize, E>) -> Written {
    joined(before, answered(answer).as_str())
}

/// A cause of a fault, as it is told.
pub fn cause<D: Display + Drop>(what: D, call: &str, error: &io::Error) -> Written {
    written(format_args!("{what}: {call}: {error};"))
}
