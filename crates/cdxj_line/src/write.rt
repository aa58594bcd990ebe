//! A line's text.
ghost use Rattle.std.specs.Prelude.{◌≡◌, ◌++◌, IfOk, OnOk};
ghost use Rattle.time_text.specs.Texts.{InRange, time_digits};
ghost use Rattle.cdxj_line.specs.Lines as spec;
ghost use Rattle.cdxj_line.specs.Lines.{IsWritable};
ghost use Rattle.cdxj_line.specs.Parts.{line_of};

use crate::length::line_len;
use crate::object::put_object;
use crate::{Line, LineParts};
use capture::{Bytes, Memory, put_all};
use std::alloc::Global;
use time_text::write_time;

/// Puts the text of a line behind what is written: the key, a blank, the date, a blank, a JSON object and LF.
///
/// The members of the object are strings, in the order of their keys. After `Memory` what was written is still there,
/// with a part of the line behind it.
pub fn put_line(out: &mut Vec<u8>, line: &Line) -> Result<(), Memory>
    requires { IsWritable line.now }
    ensures { OnOk result (out.new.items ≡ out.old.items ++ spec.line_text line.now) }
{
    put_parts(out, &line.parts())
}

/// Puts the text of a line whose parts are lent, as `put_line` does.
pub fn put_parts(out: &mut Vec<u8>, parts: &LineParts<'_>) -> Result<(), Memory>
    requires { InRange parts.now.date }
    ensures { OnOk result (out.new.items ≡ out.old.items ++ spec.line_text (line_of parts.now)) }
{
    put_all(out, parts.key)?;
    put_all(out, b" ")?;
    put_date(out, parts.date)?;
    put_all(out, b" ")?;
    put_object(out, parts, false)?;
    put_all(out, b"\n")
}

/// The text of a line.
pub fn line_text(alloc: Global, line: &Line) -> Result<Bytes, Memory>
    requires { IsWritable line.now }
    ensures { IfOk result (λ text. text ≡ spec.line_text line.now) }
{
    let parts = line.parts();
    let mut out = Vec::with_capacity(alloc, line_len(&parts))?;
    put_parts(&mut out, &parts)?;
    Ok(Bytes::of(out))
}

/// Puts the digits of a date.
fn put_date(out: &mut Vec<u8>, date: u64) -> Result<(), Memory>
    requires { InRange date }
    ensures { OnOk result (out.new.items ≡ out.old.items ++ time_digits date) }
{
    match write_time(date) {
        Ok(text) => put_all(out, text.as_slice()),
        Err(_) => unreachable!(),
    }
}
