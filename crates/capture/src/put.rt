//! Pieces that are put at the end of a text.
ghost use Rattle.std.specs.Prelude.{◌≡◌, ◌++◌, decimal, OnOk};

use crate::Memory;
use itoa::Buffer;

/// Puts these bytes at the end.
pub fn put_all(out: &mut Vec<u8>, piece: &[u8]) -> Result<(), Memory>
    ensures { OnOk result (out.new.items ≡ out.old.items ++ piece.now) }
{
    out.extend_from_slice(piece)?;
    Ok(())
}

/// Puts the number's decimal digits at the end.
pub fn put_number(out: &mut Vec<u8>, number: u64) -> Result<(), Memory>
    ensures { OnOk result (out.new.items ≡ out.old.items ++ decimal number) }
{
    let mut buffer = Buffer::new();
    put_all(out, buffer.format(number).as_bytes())
}
