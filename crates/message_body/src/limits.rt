//! The limits of a reader, on a chunked body that was cut (RFC 9112, section 7.1).
ghost use Rattle.std.specs.Prelude.{◌≡◌, ◌↔◌, IsTrue};
ghost use Rattle.capture.specs.Body.{IsWithinLimits};
ghost use Rattle.capture.specs.Chunks.{CutBody, IsCutBody, print_cut};

use capture::{BODY_LIMIT, HEAD_LIMIT, SIZE_LINE_LIMIT};
use httparse::{Status, parse_chunk_size};

/// Whether a chunked body that was cut is within the limits.
pub fn is_within_limits(wire: &[u8]) -> bool
    ensures { (c : CutBody) → IsCutBody c → wire.now ≡ print_cut c → (IsTrue result ↔ IsWithinLimits c) }
{
    if wire.len() as u64 > BODY_LIMIT {
        return false;
    }
    let mut rest = wire;
    'chunks: loop {
        let (start, size) = match parse_chunk_size(rest) {
            Ok(Status::Complete(line)) => line,
            Ok(Status::Partial) => return rest.len() <= SIZE_LINE_LIMIT,
            Err(_) => return rest.len() <= SIZE_LINE_LIMIT,
        };
        if start > SIZE_LINE_LIMIT {
            return false;
        }
        let (_, behind) = rest.split_at(start);
        if size == 0 {
            return behind.len() <= HEAD_LIMIT;
        }
        if (behind.len() as u64) < size {
            // The data of a chunk counts as soon as its size has come.
            let before = (wire.len() - behind.len()) as u64;
            return size <= BODY_LIMIT - before;
        }
        let (_, line_end) = behind.split_at(size as usize);
        match line_end {
            [_, _, others @ ..] => rest = others,
            _ => return true,
        }
    }
}
