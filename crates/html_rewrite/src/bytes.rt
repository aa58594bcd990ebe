//! Bytes of a page's markup, and how far a run of them goes.
ghost use Rattle.std.specs.Prelude.{◌≡◌, ◌==◌, ◌+◌, ◌<◌, ◌≤◌, length, drop, not};
ghost use Rattle.std.specs.List.{prefix_len};
ghost use Rattle.html_rewrite.specs.Bytes as spec;

use memchr::memchr;

/// Whether it is a tab, a line feed, a form feed, a carriage return or a space.
pub fn is_blank(b: u8) -> bool
    ensures { result ≡ spec.is_blank b }
{
    b == b'\t' || b == b'\n' || b == 0x0C || b == b'\r' || b == b' '
}

/// Whether it is a blank or a slash, which may stand between a tag's attributes.
pub fn is_gap(b: u8) -> bool
    ensures { result ≡ spec.is_gap b }
{
    is_blank(b) || b == b'/'
}

/// Whether an element's name ends before it.
pub fn is_name_end(b: u8) -> bool
    ensures { result ≡ spec.is_name_end b }
{
    is_gap(b) || b == b'>'
}

/// How many blanks the text begins with.
pub fn blank_len(text: &[u8]) -> usize
    ensures value { result ≡ prefix_len spec.is_blank text.now }
    ensures within { result ≤ length text.now }
{
    text.iter().take_while(|&&b| is_blank(b)).count()
}

/// How many blanks and slashes the text begins with.
pub fn gap_len(text: &[u8]) -> usize
    ensures value { result ≡ prefix_len spec.is_gap text.now }
    ensures within { result ≤ length text.now }
{
    text.iter().take_while(|&&b| is_gap(b)).count()
}

/// How long the name is that the text begins with.
pub fn name_len(text: &[u8]) -> usize
    ensures value { result ≡ prefix_len (λ b. not (spec.is_name_end b)) text.now }
    ensures within { result ≤ length text.now }
{
    text.iter().take_while(|&&b| !is_name_end(b)).count()
}

/// Where the byte stands first, or the text's length where it doesn't.
pub fn place_of(byte: u8, text: &[u8]) -> usize
    ensures value { result ≡ prefix_len (λ b. not (b == byte)) text.now }
    ensures within { result ≤ length text.now }
{
    match memchr(byte, text) {
        Some(at) => at,
        None => text.len(),
    }
}

/// The text's first byte and how many stand behind it before the next `<`.
pub fn plain_len(text: &[u8]) -> usize
    requires { 0 < length text.now }
    ensures value { result ≡ 1 + prefix_len (λ b. not (b == spec.less)) (drop 1 text.now) }
    ensures within { result ≤ length text.now }
{
    1 + place_of(b'<', &text[1..])
}
