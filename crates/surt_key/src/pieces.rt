//! Texts that are cut at a byte, and joined by one.
ghost use Rattle.std.specs.Prelude.{◌≡◌, ◌++◌, ◌==◌, ◌≤◌, drop, length, map, take, IfOk, OnOk};
ghost use Rattle.std.specs.List.{slice_split, join_with_byte};
ghost use Rattle.capture.specs.Fields.{lowered};
ghost use Rattle.surt_key.specs.Sorted.{sorted};

use capture::{Memory, put_all};
use std::alloc::Global;

/// The pieces of the text between the delimiters, of which there is one more than there are delimiters.
pub fn split(alloc: Global, text: &[u8], delimiter: u8) -> Result<Vec<&[u8]>, Memory>
    ensures { IfOk result (λ pieces. map (λ p. p.now) pieces.items ≡ slice_split (λ b. b == delimiter) text.now) }
{
    Ok(text.split(|b| *b == delimiter).collect(alloc)?)
}

/// Puts the pieces in the order of their bytes.
pub fn sort(pieces: &mut Vec<&[u8]>)
    ensures { map (λ p. p.now) pieces.new.items ≡ sorted (map (λ p. p.now) pieces.old.items) }
{
    pieces.sort_unstable();
}

/// Puts the pieces behind what is written, with the delimiter between each two.
pub fn put_joined(out: &mut Vec<u8>, pieces: &[&[u8]], delimiter: u8) -> Result<(), Memory>
    ensures { OnOk result (out.new.items ≡ out.old.items ++ join_with_byte delimiter (map (λ p. p.now) pieces.now)) }
{
    let [first, others @ ..] = pieces else {
        return Ok(());
    };
    put_all(out, first)?;
    for piece in others {
        out.push(delimiter)?;
        put_all(out, piece)?;
    }
    Ok(())
}

/// Puts the text behind what is written, lowered in ASCII.
pub fn put_lowered(out: &mut Vec<u8>, text: &[u8]) -> Result<(), Memory>
    ensures { OnOk result (out.new.items ≡ out.old.items ++ lowered text.now) }
{
    let start = out.len();
    put_all(out, text)?;
    lower_from(out.as_mut_slice(), start);
    Ok(())
}

/// Lowers the bytes from this place on, in ASCII.
fn lower_from(bytes: &mut [u8], start: usize)
    requires { start ≤ length bytes.old }
    ensures { bytes.new ≡ take start bytes.old ++ lowered (drop start bytes.old) }
{
    let (_, tail) = bytes.split_at_mut(start);
    tail.make_ascii_lowercase();
}

/// The text, lowered in ASCII.
pub fn lower(alloc: Global, text: &[u8]) -> Result<Vec<u8>, Memory>
    ensures { IfOk result (λ list. list.items ≡ lowered text.now) }
{
    let mut list = Vec::from_slice(alloc, text)?;
    list.as_mut_slice().make_ascii_lowercase();
    Ok(list)
}
