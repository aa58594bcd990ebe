//! What a JSON string with escapes tells, where each byte is escaped as `json_string` does it and no other is.
ghost use Rattle.std.specs.Prelude.{◌≡◌, ◌<◌, ◌++◌, ℕ, List, slice_index, IsAscii, Some, IfOk, IfSome, IsSomeAnd};
ghost use Rattle.json.specs.Print.{escape, escape_byte};
ghost use Rattle.cdxj_line.specs.steps.Unescaped as spec;

use crate::cut::strip;
use crate::json_string::{hex_digit, letter_of};
use capture::{Memory, Text};
use std::alloc::Global;

/// The text of ASCII that stands so between the quotes of a string.
pub(crate) fn unescaped(alloc: Global, raw: &[u8]) -> Result<Option<Text>, Memory>
    ensures some { IfOk result (λ read. IfSome read (λ text. raw.now ≡ escape text)) }
    ensures found { (text : List ℕ) → IsAscii text → raw.now ≡ escape text → IfOk result (λ read. read ≡ Some text) }
{
    let mut text = Vec::with_capacity(alloc, raw.len())?;
    let mut rest = raw;
    while !rest.is_empty() {
        let byte = byte_told(rest);
        let Some(behind) = strip_escape(rest, byte) else {
            return Ok(None);
        };
        text.push(byte)?;
        rest = behind;
    }
    Ok(Text::of(text))
}

/// What stands behind a byte, which is escaped where it has to be.
fn strip_escape(text: &[u8], byte: u8) -> Option<&[u8]>
    ensures some { IfSome result (λ rest. text.now ≡ escape_byte byte ++ rest.now) }
    ensures found { (rest : List ℕ) → text.now ≡ escape_byte byte ++ rest → IsSomeAnd result (λ behind. behind.now ≡ rest) }
{
    let letter = letter_of(byte);
    if letter > 0 {
        return strip(text, &[b'\\', letter]);
    }
    if byte < 32 {
        let (high, low) = (hex_digit(byte / 16), hex_digit(byte % 16));
        return strip(text, &[b'\\', b'u', b'0', b'0', high, low]);
    }
    strip(text, &[byte])
}

/// The byte that the front of a text stands for, where it stands for one.
fn byte_told(text: &[u8]) -> u8
    ensures { result ≡ spec.byte_told text.now }
{
    if byte_at(text, 0) == b'\\' {
        escaped_byte(text)
    } else {
        byte_at(text, 0)
    }
}

/// The byte of an escape that begins with a backslash.
fn escaped_byte(text: &[u8]) -> u8
    ensures { result ≡ spec.escaped_byte text.now }
{
    if byte_at(text, 1) == b'u' {
        control_of(byte_at(text, 4), byte_at(text, 5))
    } else {
        byte_of(byte_at(text, 1))
    }
}

/// The control of a long escape, by the last two of its digits.
fn control_of(high: u8, low: u8) -> u8
    ensures { result ≡ spec.control_of high low }
{
    if high == b'1' {
        16 + hex_number(low)
    } else {
        hex_number(low)
    }
}

/// The number of a hexadecimal digit in lower case.
fn hex_number(digit: u8) -> u8
    ensures value { result ≡ spec.hex_number digit }
    ensures small { result < 169 }
{
    if digit < b'a' {
        digit.saturating_sub(b'0')
    } else {
        digit - 87
    }
}

/// The byte whose short escape has the letter.
fn byte_of(letter: u8) -> u8
    ensures { result ≡ spec.byte_of letter }
{
    match letter {
        b'b' => 8,
        b'f' => 12,
        b'n' => b'\n',
        b'r' => b'\r',
        b't' => b'\t',
        _ => letter,
    }
}

/// The byte at a place, and 0 behind the end.
fn byte_at(text: &[u8], place: usize) -> u8
    ensures { result ≡ slice_index text.now place }
{
    match text.get(place) {
        Some(byte) => *byte,
        None => 0,
    }
}
