//! The first line of a response.
ghost use Rattle.std.specs.Prelude.{◌≡◌, ◌++◌, OnOk};
ghost use Rattle.head_lines.specs.Lines.{own_status_line, status_line};

use crate::end::put_line_end;
use crate::status::Status;
use capture::{Memory, put_all, put_number};

/// Puts the first line of a response (RFC 9112, section 4). An empty reason leaves its space.
#[tactic(auto, unfolding(crate::specs::Lines::status_line))]
pub fn put_status_line(out: &mut Vec<u8>, status: u16, reason: &[u8]) -> Result<(), Memory>
    ensures { OnOk result (out.new.items ≡ out.old.items ++ status_line status reason.now) }
{
    put_all(out, b"HTTP/1.1 ")?;
    put_number(out, u64::from(status))?;
    put_all(out, b" ")?;
    put_all(out, reason)?;
    put_line_end(out)
}

/// Puts the first line of an answer of the program's own.
pub fn put_own_status_line(out: &mut Vec<u8>, status: Status) -> Result<(), Memory>
    ensures { OnOk result (out.new.items ≡ out.old.items ++ own_status_line status) }
{
    put_status_line(out, status.code(), status.reason().as_bytes())
}
