//! Calls of a sink. Its steps are `write TEXT`.
use crate::given::Given;
use crate::object::{Object, played};
use crate::parts::{put_with, put_wrote};
use capture::Memory;
use outside::{MemorySink, Sink};
use std::alloc::Global;

/// What each step gave, and what was written.
pub fn sink_played(alloc: Global, given: &Given, text: &[u8]) -> Result<Option<Vec<u8>>, Memory> {
    played(alloc, MemorySink::new(alloc, given.fails.clone()?), text)
}

impl Object for MemorySink {
    fn take_step(
        &mut self,
        _: Global,
        out: &mut Vec<u8>,
        word: &str,
        text: &[u8],
    ) -> Result<bool, Memory> {
        take(out, self, word, text)
    }

    fn put_kept(&self, out: &mut Vec<u8>) -> Result<(), Memory> {
        put_with(out, b"written ", self.written())
    }
}

/// Writes once. A step has to write something.
fn take<S: Sink>(out: &mut Vec<u8>, sink: &mut S, word: &str, text: &[u8]) -> Result<bool, Memory> {
    if word != "write" || text.is_empty() {
        return Ok(false);
    }
    put_wrote(out, sink.write(text))?;
    Ok(true)
}
