//! The block of a record, with its length before it and the line ends behind it (ISO 28500, WARC 1.1, section 4).
ghost use Rattle.std.specs.Prelude.{◌≡◌, ℕ, ◌+◌, ◌<◌, ◌≤◌, ◌^◌, List, ◌++◌, decimal, length, take, IfOk, IfErr, IfSome, IfNone};
ghost use Rattle.httparse.specs.Ascii.{crlf_bytes};
ghost use Rattle.warc_text.specs.Groups.{IsOneLine};
ghost use Rattle.warc_text.specs.Lines.{length_lines};
ghost use Rattle.record_opening.specs.BlockParts.{AsksForBlock, HasBlock, RefusesBlock};
ghost use Rattle.record_opening.specs.Blocks.{IsWord};
ghost use Rattle.record_opening.specs.OpenValues.{IsPartOfNumber};
ghost use Rattle.record_opening.specs.Stops.{NoneStands, NoValueStands};

use crate::fields::split_line;
use crate::stop::Stop;
use crate::strip::strip;
use itoa::Buffer;

/// The greatest length of a text in memory, and one more.
const TOO_LONG: u64 = 1 << 63;

/// The two line ends behind a block.
const RECORD_END: &[u8] = b"\r\n\r\n";

/// A block, and what stands behind its record.
#[derive(Clone, Copy)]
pub struct Block<'b> {
    /// The block.
    pub block: &'b [u8],
    /// What stands behind the line ends.
    pub rest: &'b [u8],
}

/// Splits the block off that stands in the bytes behind an opening of this length. `Until` counts from the front of the
/// bytes.
pub fn split_block(bytes: &[u8], opening_len: usize) -> Result<Block<'_>, Stop>
    requires { opening_len ≤ length bytes.now }
    ensures ok { IfOk result (HasBlock (take opening_len bytes.now) bytes.now) }
    ensures err { IfErr result (λ stop. RefusesBlock stop (take opening_len bytes.now) bytes.now) }
    ensures asks { IfErr result (AsksForBlock (take opening_len bytes.now) bytes.now) }
{
    let (_, behind) = bytes.split_at(opening_len);
    let (told, come) = read_length(behind)?;
    let at = (bytes.len() - come.len()) as u64;
    let Some(end) = end_of(at, told) else {
        return Err(Stop::Wrong);
    };
    if (bytes.len() as u64) < end {
        return Err(Stop::Until(end));
    }
    let (block, closing) = come.split_at(told as usize);
    let rest = strip(closing, RECORD_END)?;
    Ok(Block { block, rest })
}

/// Where a record ends whose block of this length begins there. `None` where no memory reaches so far.
fn end_of(at: u64, told: u64) -> Option<u64>
    ensures some { IfSome result (λ end. (end ≡ at + told + 4) × (end < 2 ^ 63)) }
    ensures none { IfNone result (2 ^ 63 ≤ at + told + 4) }
{
    let end = at.checked_add(told)?.checked_add(4)?;
    if end < TOO_LONG { Some(end) } else { None }
}

/// Reads the length of a block, and the empty line behind it.
pub fn read_length(bytes: &[u8]) -> Result<(u64, &[u8]), Stop>
    ensures ok { IfOk result (λ read. IsWord read.0 × (bytes.now ≡ length_lines read.0 ++ read.1.now)) }
    ensures err { IfErr result (λ stop. NoneStands IsWord length_lines stop bytes.now) }
{
    let given = strip(bytes, b"Content-Length: ")?;
    let (n, empty) = read_number(given)?;
    let rest = strip(empty, b"\r\n")?;
    Ok((n, rest))
}

/// Reads a number as it is written, and its line's end.
fn read_number(bytes: &[u8]) -> Result<(u64, &[u8]), Stop>
    ensures ok { IfOk result (λ read. IsWord read.0 × (bytes.now ≡ (decimal read.0 ++ crlf_bytes) ++ read.1.now)) }
    ensures err { IfErr result (λ stop. NoValueStands IsWord (λ n. decimal n ++ crlf_bytes) IsPartOfNumber stop bytes.now) }
{
    let Some((digits, behind)) = split_line(bytes) else {
        return Err(open_number(bytes));
    };
    let Some(n) = number_of(digits) else {
        return Err(Stop::Wrong);
    };
    let rest = strip(behind, b"\r\n")?;
    Ok((n, rest))
}

/// Why no number stands whose line hasn't ended: it may go on, or none begins so.
fn open_number(bytes: &[u8]) -> Stop
    requires { IsOneLine bytes.now }
    ensures { NoValueStands IsWord (λ n. decimal n ++ crlf_bytes) IsPartOfNumber result bytes.now }
{
    if bytes.is_empty() {
        return Stop::Open;
    }
    match number_of(bytes) {
        Some(_) => Stop::Open,
        None => Stop::Wrong,
    }
}

/// The number that is written so.
pub fn number_of(digits: &[u8]) -> Option<u64>
    ensures some { IfSome result (λ n. IsWord n × (digits.now ≡ decimal n)) }
    ensures none { IfNone result ((n : ℕ) → IsWord n → ¬ (digits.now ≡ decimal n)) }
{
    let Ok(text) = std::str::from_utf8(digits) else {
        return None;
    };
    let Ok(n) = text.parse::<u64>() else {
        return None;
    };
    // A sign and zeros at the front are read too.
    let mut buffer = Buffer::new();
    if buffer.format(n) == text {
        Some(n)
    } else {
        None
    }
}
