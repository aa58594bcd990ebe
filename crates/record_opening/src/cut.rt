//! Where a record ends, by the length that it tells.
ghost use Rattle.std.specs.Prelude.{◌≡◌, ◌<◌, ◌≤◌, ℕ, List, IfSome, length};
ghost use Rattle.std.specs.Option.{IsSomeAnd};
ghost use Rattle.record_opening.specs.RecordLines.{BeginsWithLine, BeginsWithRecord, TellsLength};

use crate::block::number_of;
use crate::fields::split_line;

/// What stands before the length of a record's block (ISO 28500, WARC 1.1, section 5.5).
const LENGTH_MARK: &[u8] = b"Content-Length: ";

/// The line ends around a block: two before it, and two behind it.
const BLOCK_ENDS: usize = 8;

/// What stands behind the record that the bytes begin with, by its Content-Length field. `None` where they don't hold so many.
/// Nothing else of it is looked at, so that the answer shows no record. Takes no memory, and reads no block.
pub fn behind_record(bytes: &[u8]) -> Option<&[u8]>
    ensures behind { (rest : List ℕ) → BeginsWithRecord bytes.now rest → IsSomeAnd result (λ found. found.now ≡ rest) }
    ensures inside { IfSome result (λ found. length found.now ≤ length bytes.now) }
{
    let told = behind_length_mark(bytes)?;
    let (digits, end) = split_line(told)?;
    let len = number_of(digits)?;
    let room = end.len().checked_sub(BLOCK_ENDS)?;
    if len > room as u64 {
        return None;
    }
    let (_, rest) = end.split_at(len as usize + BLOCK_ENDS);
    Some(rest)
}

/// What stands behind the name of the first Content-Length field.
fn behind_length_mark(bytes: &[u8]) -> Option<&[u8]>
    ensures behind { (rest : List ℕ) → TellsLength bytes.now rest → IsSomeAnd result (λ found. found.now ≡ rest) }
    ensures inside { IfSome result (λ found. length found.now ≤ length bytes.now) }
{
    let mut lines = bytes;
    'lines: loop {
        if let Some(told) = lines.strip_prefix(LENGTH_MARK) {
            return Some(told);
        }
        lines = behind_line(lines)?;
    }
}

/// What stands behind the line that the bytes begin with.
fn behind_line(bytes: &[u8]) -> Option<&[u8]>
    ensures behind { (rest : List ℕ) → BeginsWithLine bytes.now rest → IsSomeAnd result (λ found. found.now ≡ rest) }
    ensures inside { IfSome result (λ found. length found.now < length bytes.now) }
{
    let (_, end) = split_line(bytes)?;
    end.strip_prefix(b"\r\n")
}
