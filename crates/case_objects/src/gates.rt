//! Calls of a gate. A step is `accept TEXT`: the next connection is read up to its end, the text is written to it, and it is hung
//! up.
use crate::dialers::put_end;
use crate::given::Given;
use crate::made::links_of;
use crate::object::{Object, played};
use crate::parts::{put_answer, put_with};
use crate::traffic::{Reply, read_all, write_all};
use capture::{Memory, put_all, put_number};
use outside::{Accepted, Gate, Heard, MemoryGate};
use std::alloc::Global;

/// What came of an accept.
#[derive(Drop)]
enum Came {
    /// A connection, which gave this.
    Gave(Vec<u8>),
    /// The gate is closed.
    Closed,
    /// A call failed.
    Failed,
    /// There was no memory.
    Memory,
}

/// What each step gave, and what was heard on the connections that were hung up.
pub fn gate_played(alloc: Global, given: &Given, text: &[u8]) -> Result<Option<Vec<u8>>, Memory> {
    let (texts, breaks) = (given.texts.as_slice(), given.breaks.as_slice());
    let links = links_of(alloc, texts, usize::MAX, given.most, breaks)?;
    let gate = MemoryGate::new(alloc, links, given.fails.clone()?);
    played(alloc, gate, text)
}

impl Object for MemoryGate {
    fn take_step(
        &mut self,
        alloc: Global,
        out: &mut Vec<u8>,
        word: &str,
        text: &[u8],
    ) -> Result<bool, Memory> {
        if word != "accept" {
            return Ok(false);
        }
        put_came(out, accepted(alloc, self, text))?;
        Ok(true)
    }

    fn put_kept(&self, out: &mut Vec<u8>) -> Result<(), Memory> {
        for heard in self.heard() {
            put_heard(out, heard)?;
        }
        Ok(())
    }
}

/// Takes the next connection, reads it up to its end, answers it, and hangs it up.
fn accepted<G: Gate>(alloc: Global, gate: &mut G, text: &[u8]) -> Came {
    match gate.accept() {
        Accepted::Connection(link) => {
            let mut link = link;
            let given = read_all(alloc, &mut link);
            let written = write_all(&mut link, text).is_ok();
            gate.hang_up(G::end(link));
            came_of(given, written)
        }
        Accepted::Closed => Came::Closed,
        Accepted::Failed => Came::Failed,
        Accepted::Memory => Came::Memory,
    }
}

fn came_of(given: Reply, written: bool) -> Came {
    match given {
        Reply::Gave(text) if written => Came::Gave(text),
        Reply::Gave(_) => Came::Failed,
        Reply::Failed => Came::Failed,
        Reply::Memory => Came::Memory,
    }
}

/// Puts `gave` and the bytes, `Closed`, or `Failed`.
fn put_came(out: &mut Vec<u8>, came: Came) -> Result<(), Memory> {
    match came {
        Came::Gave(text) => put_with(out, b"gave ", text.as_slice()),
        Came::Closed => put_answer(out, b"Closed"),
        Came::Failed => put_answer(out, b"Failed"),
        Came::Memory => Err(Memory),
    }
}

/// Puts what a connection gave, what was written to it, `ended` where its end was met, how many calls of it failed, and how many of
/// these were writes.
fn put_heard(out: &mut Vec<u8>, heard: &Heard) -> Result<(), Memory> {
    put_with(out, b"heard ", heard.given.as_slice())?;
    put_all(out, b", written ")?;
    put_all(out, heard.written.as_slice())?;
    put_end(out, heard.ended)?;
    put_all(out, b", faults ")?;
    put_number(out, heard.faults)?;
    put_all(out, b", failed writes ")?;
    put_number(out, heard.failed_writes)
}
