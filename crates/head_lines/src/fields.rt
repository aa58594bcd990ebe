//! Field lines (RFC 9112, section 5).
ghost use Rattle.std.specs.Prelude.{◌≡◌, ◌++◌, OnOk};
ghost use Rattle.head_lines.specs.Lines.{close_line, close_line_where, field_line, length_line, link_name, type_line};

use crate::end::put_line_end;
use capture::{Memory, put_all, put_number};

/// Puts a field's line.
pub fn put_field_line(out: &mut Vec<u8>, name: &[u8], value: &[u8]) -> Result<(), Memory>
    ensures { OnOk result (out.new.items ≡ out.old.items ++ field_line (name.now, value.now)) }
{
    put_all(out, name)?;
    put_all(out, b": ")?;
    put_all(out, value)?;
    put_line_end(out)
}

/// Puts the field Content-Type (RFC 9110, section 8.3).
#[tactic(auto, unfolding(crate::specs::Lines::type_line))]
pub fn put_type_line(out: &mut Vec<u8>, media_type: &[u8]) -> Result<(), Memory>
    ensures { OnOk result (out.new.items ≡ out.old.items ++ type_line media_type.now) }
{
    put_field_line(out, b"Content-Type", media_type)
}

/// Puts the field Content-Length (RFC 9110, section 8.6), of so many bytes.
#[tactic(auto, unfolding(crate::specs::Lines::length_line))]
pub fn put_length_line(out: &mut Vec<u8>, length: u64) -> Result<(), Memory>
    ensures { OnOk result (out.new.items ≡ out.old.items ++ length_line length) }
{
    put_all(out, b"Content-Length: ")?;
    put_number(out, length)?;
    put_line_end(out)
}

/// Puts `Connection: close` (RFC 9112, section 9.6).
#[tactic(auto, unfolding(crate::specs::Lines::close_line))]
pub fn put_close_line(out: &mut Vec<u8>) -> Result<(), Memory>
    ensures { OnOk result (out.new.items ≡ out.old.items ++ close_line) }
{
    put_all(out, b"Connection: close\r\n")
}

/// Puts the same where the connection closes.
#[tactic(auto, unfolding(crate::specs::Lines::close_line_where))]
pub fn put_close_line_where(out: &mut Vec<u8>, closes: bool) -> Result<(), Memory>
    ensures { OnOk result (out.new.items ≡ out.old.items ++ close_line_where closes) }
{
    if closes {
        return put_close_line(out);
    }
    Ok(())
}

/// Puts what stands before the links in the field Link (RFC 8288, section 3). Behind the last one comes the line's end.
#[tactic(auto, unfolding(crate::specs::Lines::link_name))]
pub fn put_link_name(out: &mut Vec<u8>) -> Result<(), Memory>
    ensures { OnOk result (out.new.items ≡ out.old.items ++ link_name) }
{
    put_all(out, b"Link: ")
}
