//! The end of a line and of a head, and the body behind it.
ghost use Rattle.std.specs.Prelude.{◌≡◌, ◌++◌, OnOk};
ghost use Rattle.httparse.specs.Ascii.{crlf_bytes};
ghost use Rattle.head_lines.specs.Lines.{body_unless, head_end};

use crate::fields::{put_close_line_where, put_length_line};
use capture::{Memory, put_all};

/// Puts the end of a line, and so the empty line behind the last field (RFC 9112, section 2.1).
pub fn put_line_end(out: &mut Vec<u8>) -> Result<(), Memory>
    ensures { OnOk result (out.new.items ≡ out.old.items ++ crlf_bytes) }
{
    put_all(out, b"\r\n")
}

/// Puts what ends the head of an answer: the length of its body in bytes, whether the connection closes, and the empty line.
#[tactic(auto, unfolding(crate::specs::Lines::head_end))]
pub fn put_head_end(out: &mut Vec<u8>, length: u64, closes: bool) -> Result<(), Memory>
    ensures { OnOk result (out.new.items ≡ out.old.items ++ head_end length closes) }
{
    put_length_line(out, length)?;
    put_close_line_where(out, closes)?;
    put_line_end(out)
}

/// Puts the body, unless the answer is one to HEAD (RFC 9110, section 9.3.2).
pub fn put_body_unless(out: &mut Vec<u8>, answers_head: bool, body: &[u8]) -> Result<(), Memory>
    ensures { OnOk result (out.new.items ≡ out.old.items ++ body_unless answers_head body.now) }
{
    if answers_head {
        return Ok(());
    }
    put_all(out, body)
}
