//! Causes of faults, for the one who started the program.
use crate::error_lines::put_line;
use std::fmt::{Display, InlineText};
use std::io;

/// The most bytes that a line has of what a call was about. A host that a client chose may be longer: its end is left out, so that the cause isn't.
const SUBJECT: usize = 128;

/// Takes the cause of each fault that an object of the outside counts.
pub trait Causes {
    /// Tells a cause: what the call was about, as a file's path or a peer, the call in a word or two, and why it failed.
    /// Where it can't be told, nothing comes of it.
    fn tell<D: Display + Drop>(&mut self, what: D, call: &str, error: &io::Error);
}

/// A line on standard error for each cause, which is no text of a sink's. No exchange waits for it: a line that can't be written at once is left out.
impl Causes for HostRuntime {
    fn tell<D: Display + Drop>(&mut self, what: D, call: &str, error: &io::Error) {
        let what = InlineText::<SUBJECT>::of(what);
        let what = what.as_str();
        put_line(format_args!("memproxy: {what}: {call}: {error}"));
    }
}
