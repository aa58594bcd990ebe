//! A line of a case file.

/// The first word of a line, and what follows the space behind it.
#[derive(Clone, Copy)]
pub struct Line<'a> {
    pub word: &'a str,
    pub rest: &'a str,
}

impl<'a> Line<'a> {
    /// The parts of a line.
    pub fn of(text: &'a str) -> Line<'a> {
        match text.split_once(' ') {
            Some((word, rest)) => Line { word, rest },
            None => Line {
                word: text,
                rest: "",
            },
        }
    }
}
