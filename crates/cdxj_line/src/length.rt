//! The length of a line's text, told without writing it. Nothing here takes memory.
ghost use Rattle.std.specs.Prelude.{◌≡◌, ◌+◌, ℕ, length, decimal};
ghost use Rattle.json.specs.Print.{quoted};
ghost use Rattle.time_text.specs.Texts.{InRange, time_digits};
ghost use Rattle.cdxj_line.specs.Lengths.{capped};
ghost use Rattle.cdxj_line.specs.Lines as spec;
ghost use Rattle.cdxj_line.specs.Lines.{file_name};
ghost use Rattle.cdxj_line.specs.Parts.{line_of};

use crate::LineParts;
use crate::json_string::add_quoted;
use digest32::base32_of;
use itoa::Buffer;
use time_text::write_time;

/// What a line has beside its values: the names of the members with what stands round them, two blanks and LF.
const FIXED: usize = 91;

/// The length of a line's text in bytes, so that who puts many lines can reserve once. Takes no memory.
///
/// A length that no `usize` tells is told as the greatest one.
pub fn line_len(parts: &LineParts<'_>) -> usize
    requires { InRange parts.now.date }
    ensures { result ≡ capped (length (spec.line_text (line_of parts.now))) }
{
    let len = FIXED
        .saturating_add(parts.key.len())
        .saturating_add(date_len(parts.date));
    let len = add_quoted(len, &base32_of(parts.digest));
    let len = add_file_name(len, parts.volume);
    let len = add_number(len, parts.length);
    let len = add_quoted(len, parts.method);
    let len = add_quoted(len, parts.mime);
    let len = add_number(len, u64::from(parts.number));
    let len = add_number(len, parts.offset);
    let len = add_number(len, u64::from(parts.status));
    add_quoted(len, parts.url)
}

/// How many digits a date has.
fn date_len(date: u64) -> usize
    requires { InRange date }
    ensures { result ≡ length (time_digits date) }
{
    match write_time(date) {
        Ok(text) => text.as_slice().len(),
        Err(_) => unreachable!(),
    }
}

/// A length with that of a number in decimal, in quotes.
fn add_number(len: usize, number: u64) -> usize
    ensures { (n : ℕ) → len ≡ capped n → result ≡ capped (n + length (quoted (decimal number))) }
{
    let mut buffer = Buffer::new();
    add_quoted(len, buffer.format(number).as_bytes())
}

/// A length with that of the name of a volume's file, in quotes.
fn add_file_name(len: usize, volume: u32) -> usize
    ensures { (n : ℕ) → len ≡ capped n → result ≡ capped (n + length (quoted (file_name volume))) }
{
    let mut buffer = Buffer::new();
    let digits = buffer.format(volume).len();
    len.saturating_add(11 + digits.max(6))
}
