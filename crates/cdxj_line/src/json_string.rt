//! Strings of JSON (RFC 8259, section 7), as `serde_json` writes them.
ghost use Rattle.std.specs.Prelude.{◌≡◌, ℕ, ◌+◌, ◌++◌, ◌<◌, List, length, IsAscii, Some, IfOk, IfSome, OnOk};
ghost use Rattle.std.specs.Char.{digit_char};
ghost use Rattle.std.specs.List.{list_all};
ghost use Rattle.cdxj_line.specs.Lengths.{capped};
ghost use Rattle.cdxj_line.specs.steps.Written as spec;
ghost use Rattle.json.specs.Print.{escape, escape_byte, escape_letter, quoted};

use crate::unescaping::unescaped;
use capture::{Memory, Text, put_all};
use std::alloc::Global;

/// Puts a text in quotes.
pub(crate) fn put_quoted(out: &mut Vec<u8>, text: &[u8]) -> Result<(), Memory>
    ensures { OnOk result (out.new.items ≡ out.old.items ++ quoted text.now) }
{
    out.push(b'"')?;
    put_escaped(out, text)?;
    out.push(b'"')?;
    Ok(())
}

/// Puts a text with its quotes, backslashes and controls escaped.
fn put_escaped(out: &mut Vec<u8>, text: &[u8]) -> Result<(), Memory>
    ensures { OnOk result (out.new.items ≡ out.old.items ++ escape text.now) }
{
    if is_plain(text) {
        return put_all(out, text);
    }
    for byte in text {
        put_escaped_byte(out, *byte)?;
    }
    Ok(())
}

/// Whether the text is of ASCII and no byte has to be escaped, as of nearly every text.
fn is_plain(text: &[u8]) -> bool
    ensures { result ≡ list_all spec.is_plain text.now }
{
    text.iter().all(|b| is_plain_byte(*b))
}

/// Whether the byte is of ASCII and stands for itself.
fn is_plain_byte(byte: u8) -> bool
    ensures { result ≡ spec.is_plain byte }
{
    byte != b'"' && byte != b'\\' && byte >= 32 && byte < 128
}

/// Puts a byte, escaped where it has to be.
fn put_escaped_byte(out: &mut Vec<u8>, byte: u8) -> Result<(), Memory>
    ensures { OnOk result (out.new.items ≡ out.old.items ++ escape_byte byte) }
{
    let letter = letter_of(byte);
    if letter > 0 {
        return put_all(out, &[b'\\', letter]);
    }
    if byte < 32 {
        let (high, low) = (hex_digit(byte / 16), hex_digit(byte % 16));
        return put_all(out, &[b'\\', b'u', b'0', b'0', high, low]);
    }
    out.push(byte)?;
    Ok(())
}

/// The letter of a byte's short escape, or 0 where it has none.
pub(crate) fn letter_of(byte: u8) -> u8
    ensures { result ≡ escape_letter byte }
{
    match byte {
        b'"' => b'"',
        b'\\' => b'\\',
        8 => b'b',
        12 => b'f',
        b'\n' => b'n',
        b'\r' => b'r',
        b'\t' => b't',
        _ => 0,
    }
}

/// A digit of a hexadecimal number, in lower case.
pub(crate) fn hex_digit(number: u8) -> u8
    requires { number < 16 }
    ensures { result ≡ digit_char number }
{
    if number < 10 {
        b'0' + number
    } else {
        b'a' + (number - 10)
    }
}

/// The text of ASCII that stands so between the quotes of a string. Takes no memory beside it.
pub(crate) fn read_escaped(alloc: Global, raw: &[u8]) -> Result<Option<Text>, Memory>
    ensures some { IfOk result (λ read. IfSome read (λ text. raw.now ≡ escape text)) }
    ensures found { (text : List ℕ) → IsAscii text → raw.now ≡ escape text → IfOk result (λ read. read ≡ Some text) }
{
    if is_plain(raw) {
        return Ok(Some(plain_text(alloc, raw)?));
    }
    unescaped(alloc, raw)
}

/// A text that is known to be of ASCII, in memory of its own.
fn plain_text(alloc: Global, ascii: &[u8]) -> Result<Text, Memory>
    requires { IsAscii ascii.now }
    ensures { IfOk result (λ text. text ≡ ascii.now) }
{
    match std::str::from_utf8(ascii) {
        Ok(text) => Text::from_str(alloc, text),
        Err(_) => unreachable!(),
    }
}

/// A length with that of a text in quotes.
pub(crate) fn add_quoted(len: usize, text: &[u8]) -> usize
    ensures { (n : ℕ) → len ≡ capped n → result ≡ capped (n + length (quoted text.now)) }
{
    add_escaped(len.saturating_add(2), text)
}

/// A length with that of a text whose quotes, backslashes and controls are escaped.
fn add_escaped(len: usize, text: &[u8]) -> usize
    ensures { (n : ℕ) → len ≡ capped n → result ≡ capped (n + length (escape text.now)) }
{
    if is_plain(text) {
        return len.saturating_add(text.len());
    }
    let mut sum = len;
    for byte in text {
        sum = sum.saturating_add(escaped_len(*byte));
    }
    sum
}

/// How many bytes stand for a byte.
fn escaped_len(byte: u8) -> usize
    ensures { result ≡ length (escape_byte byte) }
{
    if letter_of(byte) > 0 {
        return 2;
    }
    if byte < 32 {
        return 6;
    }
    1
}
