//! What goes over a link, whole.
use capture::{Failed, Memory, put_all};
use outside::Link;
use std::alloc::Global;

/// How many bytes are read at once.
const ROOM: usize = 64;

/// How many calls are made at most.
const MOST: u32 = 1_000;

/// What came of a link to which a text was written, and which was read up to its end.
#[derive(Drop)]
pub enum Reply {
    /// It gave this.
    Gave(Vec<u8>),
    /// A call failed.
    Failed,
    /// There was no memory.
    Memory,
}

/// Writes the text, and reads up to the end.
pub fn talk<L: Link>(alloc: Global, link: &mut L, text: &[u8]) -> Reply {
    if write_all(link, text).is_err() {
        return Reply::Failed;
    }
    read_all(alloc, link)
}

/// Reads up to the end.
pub fn read_all<L: Link>(alloc: Global, link: &mut L) -> Reply {
    let mut out = Vec::new(alloc);
    match read_into(alloc, link, &mut out) {
        Ok(true) => Reply::Gave(out),
        Ok(false) => Reply::Failed,
        Err(Memory) => Reply::Memory,
    }
}

/// Puts what is read up to the end, or up to a call that fails, and says whether none did.
fn read_into<L: Link>(alloc: Global, link: &mut L, out: &mut Vec<u8>) -> Result<bool, Memory> {
    let mut into = vec![in alloc; 0; ROOM]?;
    for _ in 0..MOST {
        match link.read(into.as_mut_slice()) {
            Ok(0) => return Ok(true),
            Ok(count) => put_all(out, into.as_slice().split_at(count).0)?,
            Err(Failed) => return Ok(false),
        }
    }
    Ok(false)
}

/// Writes a text whole.
pub fn write_all<L: Link>(link: &mut L, text: &[u8]) -> Result<(), Failed> {
    let mut rest = text;
    for _ in 0..MOST {
        if rest.is_empty() {
            break;
        }
        let count = link.write(rest)?;
        rest = rest.split_at(count).1;
    }
    Ok(())
}
