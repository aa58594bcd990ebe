//! Comments, declarations and end tags, which go through what closes them.
ghost use Rattle.std.specs.Prelude.{◌≤◌, ◌<◌, length, take, drop};
ghost use Rattle.html_rewrite.specs.Bytes.{IsUpTo, begins_with};
ghost use Rattle.html_rewrite.specs.Split.{IsThrough};

use crate::bytes::place_of;

/// How long the text is through the first closer behind so many bytes, or all of it where there is none.
pub fn through_len(text: &[u8], opening: usize, closer: &[u8]) -> usize
    requires opens { opening ≤ length text.now }
    requires closes { 0 < length closer.now }
    ensures within { result ≤ length text.now }
    ensures some { opening ≤ result }
    ensures through { IsThrough opening closer.now (take result text.now) (drop result text.now) }
{
    let (_, inner) = text.split_at(opening);
    let len = len_before(inner, closer);
    if closer.len() < inner.len() - len {
        opening + len + closer.len()
    } else {
        text.len()
    }
}

/// Where the closer stands first, or the text's length where it doesn't.
fn len_before(text: &[u8], closer: &[u8]) -> usize
    requires { 0 < length closer.now }
    ensures within { result ≤ length text.now }
    ensures front { IsUpTo (begins_with closer.now) (take result text.now) (drop result text.now) }
{
    let first = closer[0];
    let mut len = place_of(first, text);
    'places: while len < text.len() && !text[len..].starts_with(closer) {
        len += 1;
        len += place_of(first, &text[len..]);
    }
    len
}
