//! The text behind a start tag that no tag begins in.
ghost use Rattle.std.specs.Prelude.{◌≡◌, ◌≤◌, length, take, drop};
ghost use Rattle.std.specs.Str.{str_eq_ignore_ascii_case};
ghost use Rattle.html_rewrite.specs.Bytes.{begins};
ghost use Rattle.html_rewrite.specs.Bytes as bytes_spec;
ghost use Rattle.html_rewrite.specs.Split.{IsRawText};
ghost use Rattle.html_rewrite.specs.Split as spec;

use crate::bytes::{is_name_end, place_of};
use crate::names::is_raw_text;

/// How long the text is that is passed over behind the start tag of this element.
pub fn raw_text_len(element: &[u8], text: &[u8]) -> usize
    ensures within { result ≤ length text.now }
    ensures raw { IsRawText element.now (take result text.now) (drop result text.now) }
{
    if is_raw_text(element) {
        len_before_end_tag(element, text)
    } else {
        0
    }
}

/// Where the element's end tag begins first, or the text's length where it doesn't.
fn len_before_end_tag(element: &[u8], text: &[u8]) -> usize
    ensures within { result ≤ length text.now }
    ensures front { bytes_spec.IsUpTo (spec.ends_raw_text element.now) (take result text.now) (drop result text.now) }
{
    let mut len = place_of(b'<', text);
    'places: while len < text.len() && !is_end_tag(element, &text[len..]) {
        len += 1;
        len += place_of(b'<', &text[len..]);
    }
    len
}

/// Whether the end tag of this element begins here.
fn is_end_tag(element: &[u8], text: &[u8]) -> bool
    ensures { result ≡ spec.ends_raw_text element.now text.now }
{
    if !text.starts_with(b"</") {
        return false;
    }
    let (_, rest) = text.split_at(2);
    if rest.len() < element.len() {
        return false;
    }
    let (name, behind) = rest.split_at(element.len());
    is_same_name(name, element) && ends_name(behind)
}

/// Whether it is the element's name, ASCII case ignored.
fn is_same_name(name: &[u8], element: &[u8]) -> bool
    ensures { result ≡ str_eq_ignore_ascii_case name.now element.now }
{
    name.eq_ignore_ascii_case(element)
}

/// Whether a byte stands here before which an element's name ends.
fn ends_name(text: &[u8]) -> bool
    ensures { result ≡ begins bytes_spec.is_name_end text.now }
{
    match text {
        [first, ..] => is_name_end(*first),
        [] => false,
    }
}
