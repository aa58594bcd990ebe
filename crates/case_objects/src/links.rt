//! Calls of a link. Its steps are `read N`, which has room for so many bytes, and `write TEXT`.
ghost use Rattle.std.specs.Prelude.{◌<◌};

use crate::given::Given;
use crate::made::links_of;
use crate::object::{Object, played};
use crate::parts::{amount_in, put_answer, put_with, put_wrote};
use capture::{Failed, Memory};
use outside::{Link, MemoryLink};
use std::alloc::Global;

/// What each step gave, and what was written. The link gives the last of the texts.
pub fn link_played(alloc: Global, given: &Given, text: &[u8]) -> Result<Option<Vec<u8>>, Memory> {
    let (texts, fails) = (given.texts.as_slice(), given.fails.as_slice());
    let mut links = links_of(alloc, texts, usize::MAX, given.most, fails)?;
    match links.pop() {
        Some(link) => played(alloc, link, text),
        None => Ok(None),
    }
}

impl Object for MemoryLink {
    fn take_step(
        &mut self,
        alloc: Global,
        out: &mut Vec<u8>,
        word: &str,
        text: &[u8],
    ) -> Result<bool, Memory> {
        take(alloc, out, self, word, text)
    }

    fn put_kept(&self, out: &mut Vec<u8>) -> Result<(), Memory> {
        put_with(out, b"written ", self.written())
    }
}

fn take<L: Link>(
    alloc: Global,
    out: &mut Vec<u8>,
    link: &mut L,
    word: &str,
    text: &[u8],
) -> Result<bool, Memory> {
    match word {
        "read" => match amount_in(text) {
            Some(room) => put_read(alloc, out, link, room),
            None => Ok(false),
        },
        "write" => put_write(out, link, text),
        _ => Ok(false),
    }
}

/// Puts `read` and the bytes, `end`, or `Failed`.
fn put_read<L: Link>(
    alloc: Global,
    out: &mut Vec<u8>,
    link: &mut L,
    room: usize,
) -> Result<bool, Memory>
    requires { 0 < room }
{
    let mut into = vec![in alloc; 0; room]?;
    match link.read(into.as_mut_slice()) {
        Ok(0) => put_answer(out, b"end")?,
        Ok(count) => put_with(out, b"read ", into.as_slice().split_at(count).0)?,
        Err(Failed) => put_answer(out, b"Failed")?,
    }
    Ok(true)
}

/// Writes once. A step has to write something.
fn put_write<L: Link>(out: &mut Vec<u8>, link: &mut L, piece: &[u8]) -> Result<bool, Memory> {
    if piece.is_empty() {
        return Ok(false);
    }
    put_wrote(out, link.write(piece))?;
    Ok(true)
}
