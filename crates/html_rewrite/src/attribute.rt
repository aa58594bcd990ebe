//! What gives an attribute of a start tag its value.
ghost use Rattle.std.specs.Prelude.{◌≡◌, ◌+◌, ◌<◌, ◌≤◌, length, take, drop};
ghost use Rattle.std.specs.List.{prefix_len};
ghost use Rattle.html_rewrite.specs.Tags as spec;
ghost use Rattle.html_rewrite.specs.declared.attribute.Quote.TheVariants.{Bare};
ghost use Rattle.html_rewrite.specs.steps.Reading.{IsFound, IsNext, sign_len};

use crate::bytes::{blank_len, gap_len, is_blank, is_name_end, place_of};

/// The quotes round a value.
#[derive(Clone, Copy)]
pub enum Quote {
    /// `"`
    Double,
    /// `'`
    Single,
    /// None.
    Bare,
}

/// What stands behind an attribute's name.
pub enum Found {
    /// No value.
    Missing,
    /// A value whose closing quote is missing.
    Unclosed,
    /// A value.
    Value {
        /// The length of what stands before it: blanks, `=`, blanks and the opening quote.
        lead: usize,
        /// Its own length.
        len: usize,
        /// The length of the closing quote.
        closing: usize,
    },
}

/// What stands next inside a tag.
pub enum Next {
    /// An attribute, behind so many blanks and slashes.
    AnAttribute(usize),
    /// The tag's end, which so many bytes go up to.
    Close(usize),
    /// The end of the page.
    PageEnd,
}

/// What stands next inside a tag.
pub fn next_at(text: &[u8]) -> Next
    ensures { IsNext text.now result }
{
    let gap = gap_len(text);
    let (_, rest) = text.split_at(gap);
    match rest.first() {
        None => Next::PageEnd,
        Some(b'>') => Next::Close(gap + 1),
        Some(_) => Next::AnAttribute(gap),
    }
}

/// The attribute's name that the text begins with.
pub fn attribute_name(text: &[u8]) -> &[u8]
    requires { 0 < length text.now }
    ensures { result.now ≡ take (1 + prefix_len spec.is_attribute_byte (drop 1 text.now)) text.now }
{
    let (_, others) = text.split_at(1);
    let (name, _) = text.split_at(1 + attribute_len(others));
    name
}

/// How long an attribute's name is behind its first byte.
fn attribute_len(text: &[u8]) -> usize
    ensures value { result ≡ prefix_len spec.is_attribute_byte text.now }
    ensures within { result ≤ length text.now }
{
    text.iter().take_while(|&&b| is_attribute_byte(b)).count()
}

/// Whether a name of an attribute goes on with the byte.
fn is_attribute_byte(b: u8) -> bool
    ensures { result ≡ spec.is_attribute_byte b }
{
    !(is_name_end(b) || b == b'=')
}

/// The value that stands behind an attribute's name.
pub fn found_at(text: &[u8]) -> Found
    ensures { IsFound text.now result }
{
    let sign = sign_len(text);
    if sign == 0 {
        return Found::Missing;
    }
    let (_, text) = text.split_at(sign);
    let quote = quote_at(text);
    let closing = quote_len(quote);
    let (_, text) = text.split_at(closing);
    let len = value_len(text, quote);
    if len + closing > text.len() {
        return Found::Unclosed;
    }
    Found::Value {
        lead: sign + closing,
        len,
        closing,
    }
}

/// The length in bytes of blanks, `=` and blanks at the front; 0 where no `=` stands there.
fn sign_len(text: &[u8]) -> usize
    ensures value { result ≡ sign_len text.now }
    ensures within { result ≤ length text.now }
{
    let before = blank_len(text);
    let (_, rest) = text.split_at(before);
    match rest {
        [b'=', rest @ ..] => before + 1 + blank_len(rest),
        _ => 0,
    }
}

/// The quotes of a value that begins here.
fn quote_at(text: &[u8]) -> Quote
    ensures { result ≡ spec.quote_at text.now }
{
    match text {
        [b'"', ..] => Quote::Double,
        [b'\'', ..] => Quote::Single,
        _ => Quote::Bare,
    }
}

/// How many bytes open, or close, a value in these quotes.
fn quote_len(quote: Quote) -> usize
    ensures { result ≡ length (spec.quote_text quote) }
{
    match quote {
        Quote::Double | Quote::Single => 1,
        Quote::Bare => 0,
    }
}

/// The length in bytes of a value behind its opening quote, if it has one; that of the text where it doesn't end.
fn value_len(text: &[u8], quote: Quote) -> usize
    ensures value { result ≡ prefix_len (spec.is_value_byte quote) text.now }
    ensures within { result ≤ length text.now }
{
    match quote {
        Quote::Double => place_of(b'"', text),
        Quote::Single => place_of(b'\'', text),
        Quote::Bare => bare_len(text),
    }
}

/// How long the value without quotes is that the text begins with.
fn bare_len(text: &[u8]) -> usize
    ensures value { result ≡ prefix_len (spec.is_value_byte Bare) text.now }
    ensures within { result ≤ length text.now }
{
    text.iter().take_while(|&&b| is_bare_byte(b)).count()
}

/// Whether a value without quotes goes on with the byte.
fn is_bare_byte(b: u8) -> bool
    ensures { result ≡ spec.is_value_byte Bare b }
{
    !(is_blank(b) || b == b'>')
}
