//! Reads the opening of a capture's first record, up to its block.
ghost use Rattle.std.specs.Prelude.{◌≡◌, IfErr, IfOk};
ghost use Rattle.record_opening.specs.FirstOpenings.{BeginsWithOpening, IsFirst, first_lines};
ghost use Rattle.record_opening.specs.Stops.{NoneStands};

use crate::block::read_length;
use crate::opening::{Opening, read_opening};
use crate::stop::Stop;
use std::alloc::Global;
use uuid::Uuid;
use warc_text::{IdKind, id_of};

/// The opening of a capture's first record, and where its block stands, in bytes from the record's first byte on.
#[derive(Drop)]
pub struct FirstOpening<'b> {
    /// What it says.
    pub opening: Opening<'b>,
    /// Where the block begins, which is the response's head and what is kept of its body.
    pub block_at: u64,
    /// The length of the block.
    pub block_len: u64,
}

/// Reads the opening of the first record of the group with this number, up to its block, whatever that is.
pub fn read_first_opening<'b>(
    alloc: Global,
    bytes: &'b [u8],
    namespace: &Uuid,
    number: u32,
) -> Result<FirstOpening<'b>, Stop>
    ensures ok { IfOk result (BeginsWithOpening namespace.now number bytes.now) }
    ensures err { IfErr result (λ stop. NoneStands IsFirst (first_lines namespace.now number) stop bytes.now) }
{
    let id = id_of(namespace, IdKind::Response, number);
    // A `?` on a result that holds an id isn't covered.
    let opening = match read_opening(alloc, bytes, &id) {
        Ok(opening) => opening,
        Err(stop) => return Err(stop),
    };
    let (block_len, block) = read_length(opening.rest)?;
    Ok(FirstOpening {
        opening,
        block_at: (bytes.len() - block.len()) as u64,
        block_len,
    })
}
