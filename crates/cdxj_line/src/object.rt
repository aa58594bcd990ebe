//! The text of a line's JSON object, all of whose members are strings.
ghost use Rattle.std.specs.Prelude.{◌≡◌, ◌++◌, codes, decimal, OnOk};
ghost use Rattle.digest32.specs.Base32.{base32};
ghost use Rattle.time_text.specs.Texts.{InRange, time_digits};
ghost use Rattle.cdxj_line.specs.Lines as spec;
ghost use Rattle.cdxj_line.specs.Lines.{file_name};
ghost use Rattle.cdxj_line.specs.Parts.{line_of};
ghost use Rattle.cdxj_line.specs.steps.Written.{first_members, further_member, last_members, member_text, number_members};

use crate::LineParts;
use crate::file_name::put_file_name;
use crate::json_string::put_quoted;
use capture::{Digest, Memory, put_all};
use digest32::base32_of;
use itoa::Buffer;
use time_text::write_time;

/// Puts the text of a line's JSON object. Where `further`, it has the members `timestamp` and `urlkey` too, as an answer
/// to a query has them: the digits of the date, and the key.
///
/// After `Memory` what was written is still there, with a part of the object behind it.
pub fn put_object(out: &mut Vec<u8>, parts: &LineParts<'_>, further: bool) -> Result<(), Memory>
    requires { InRange parts.now.date }
    ensures { OnOk result (out.new.items ≡ out.old.items ++ spec.object_text further (line_of parts.now)) }
{
    put_first(out, parts)?;
    put_numbers(out, parts)?;
    put_last(out, parts, further)
}

/// Puts the first members, from the opening brace on.
#[tactic(auto, unfolding(crate::specs::steps::Written::first_members))]
fn put_first(out: &mut Vec<u8>, parts: &LineParts<'_>) -> Result<(), Memory>
    ensures { OnOk result (out.new.items ≡ out.old.items ++ first_members (line_of parts.now)) }
{
    put_digest(out, parts.digest)?;
    put_file(out, parts.volume)?;
    put_number(out, b",\"length\":", parts.length)?;
    put_member(out, b",\"method\":", parts.method)?;
    put_member(out, b",\"mime\":", parts.mime)
}

/// Puts the numbers behind them.
#[tactic(auto, unfolding(crate::specs::steps::Written::number_members))]
fn put_numbers(out: &mut Vec<u8>, parts: &LineParts<'_>) -> Result<(), Memory>
    ensures { OnOk result (out.new.items ≡ out.old.items ++ number_members (line_of parts.now)) }
{
    put_number(out, b",\"number\":", u64::from(parts.number))?;
    put_number(out, b",\"offset\":", parts.offset)?;
    put_number(out, b",\"status\":", u64::from(parts.status))
}

/// Puts the last members, up to the closing brace.
#[tactic(auto, unfolding(crate::specs::steps::Written::last_members))]
fn put_last(out: &mut Vec<u8>, parts: &LineParts<'_>, further: bool) -> Result<(), Memory>
    requires { InRange parts.now.date }
    ensures { OnOk result (out.new.items ≡ out.old.items ++ last_members further (line_of parts.now)) }
{
    put_timestamp(out, parts.date, further)?;
    put_member(out, b",\"url\":", parts.url)?;
    put_key(out, parts.key, further)?;
    put_all(out, b"}")
}

/// Puts the date, where it is told beside the members of a line.
#[tactic(auto, unfolding(crate::specs::steps::Written::further_member))]
fn put_timestamp(out: &mut Vec<u8>, date: u64, further: bool) -> Result<(), Memory>
    requires { InRange date }
    ensures { OnOk result (out.new.items ≡ out.old.items ++ further_member further (codes ",\"timestamp\":") (time_digits date)) }
{
    if !further {
        return Ok(());
    }
    match write_time(date) {
        Ok(text) => put_member(out, b",\"timestamp\":", text.as_slice()),
        Err(_) => unreachable!(),
    }
}

/// Puts the key, where it is told beside the members of a line.
#[tactic(auto, unfolding(crate::specs::steps::Written::further_member))]
fn put_key(out: &mut Vec<u8>, key: &[u8], further: bool) -> Result<(), Memory>
    ensures { OnOk result (out.new.items ≡ out.old.items ++ further_member further (codes ",\"urlkey\":") key.now) }
{
    if !further {
        return Ok(());
    }
    put_member(out, b",\"urlkey\":", key)
}

/// Puts the base32 text of a digest, the first member.
fn put_digest(out: &mut Vec<u8>, digest: &Digest) -> Result<(), Memory>
    ensures { OnOk result (out.new.items ≡ out.old.items ++ member_text (codes "{\"digest\":") (base32 digest.now)) }
{
    put_member(out, b"{\"digest\":", &base32_of(digest))
}

/// Puts the name of the volume's file.
#[tactic(auto, unfolding(crate::specs::steps::Written::member_text))]
fn put_file(out: &mut Vec<u8>, volume: u32) -> Result<(), Memory>
    ensures { OnOk result (out.new.items ≡ out.old.items ++ member_text (codes ",\"filename\":") (file_name volume)) }
{
    put_all(out, b",\"filename\":")?;
    put_file_name(out, volume)
}

/// Puts a member whose value is a number in decimal.
fn put_number(out: &mut Vec<u8>, front: &[u8], number: u64) -> Result<(), Memory>
    ensures { OnOk result (out.new.items ≡ out.old.items ++ member_text front.now (decimal number)) }
{
    let mut buffer = Buffer::new();
    put_member(out, front, buffer.format(number).as_bytes())
}

/// Puts a member. What stands before its value is told: the mark before its name, the name and the colon.
#[tactic(auto, unfolding(crate::specs::steps::Written::member_text))]
fn put_member(out: &mut Vec<u8>, front: &[u8], value: &[u8]) -> Result<(), Memory>
    ensures { OnOk result (out.new.items ≡ out.old.items ++ member_text front.now value.now) }
{
    put_all(out, front)?;
    put_quoted(out, value)
}
