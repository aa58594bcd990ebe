//! The members of a line's JSON object, all of which are strings.
ghost use Rattle.std.specs.Prelude.{◌≡◌, ◌≤◌, ℕ, List, ◌∷◌, ◌++◌, false, length, codes, IfSome, IsSomeAnd};
ghost use Rattle.std.specs.List.{prefix_len};
ghost use Rattle.json.specs.Print.{escape};
ghost use Rattle.cdxj_line.specs.Lines.{object_text};
ghost use Rattle.cdxj_line.specs.steps.Shown.{Shows, between, text_of};
ghost use Rattle.cdxj_line.specs.steps.Strings as spec;
ghost use Rattle.cdxj_line.specs.declared.line.Line.{Line};

use crate::cut::strip;

/// The strings of a line's JSON object, each as it stands between its quotes.
#[derive(Clone, Copy)]
pub(crate) struct Members<'a> {
    pub digest: &'a [u8],
    pub filename: &'a [u8],
    pub length: &'a [u8],
    pub method: &'a [u8],
    pub mime: &'a [u8],
    pub number: &'a [u8],
    pub offset: &'a [u8],
    pub status: &'a [u8],
    pub url: &'a [u8],
}

/// The strings of a JSON object that has those members, and nothing beside them.
pub(crate) fn members_of(object: &[u8]) -> Option<Members<'_>>
    ensures some { IfSome result (λ members. object.now ≡ text_of members) }
    ensures found { (line : Line) → object.now ≡ object_text false line → IsSomeAnd result (Shows line) }
{
    let (digest, rest) = member(object, b"{\"digest\":\"")?;
    let (filename, rest) = member(rest, b",\"filename\":\"")?;
    let (length, rest) = member(rest, b",\"length\":\"")?;
    let (method, rest) = member(rest, b",\"method\":\"")?;
    let (mime, rest) = member(rest, b",\"mime\":\"")?;
    let (number, rest) = member(rest, b",\"number\":\"")?;
    let (offset, rest) = member(rest, b",\"offset\":\"")?;
    let (status, rest) = member(rest, b",\"status\":\"")?;
    let url = last_member(rest)?;
    Some(Members {
        digest,
        filename,
        length,
        method,
        mime,
        number,
        offset,
        status,
        url,
    })
}

/// The string of the last member.
fn last_member(text: &[u8]) -> Option<&[u8]>
    ensures some { IfSome result (λ value. text.now ≡ between (codes ",\"url\":\"") value.now (codes "}")) }
    ensures found { (value : List ℕ) → text.now ≡ between (codes ",\"url\":\"") (escape value) (codes "}")
        → IsSomeAnd result (λ read. read.now ≡ escape value) }
{
    let (value, rest) = member(text, b",\"url\":\"")?;
    match rest {
        [b'}'] => Some(value),
        _ => None,
    }
}

/// The string of a member of which what stands before its value is told, and what stands behind it.
// Inlined, so that its front is a literal where it is compared.
#[inline(always)]
fn member<'a>(text: &'a [u8], front: &[u8]) -> Option<(&'a [u8], &'a [u8])>
    ensures some { IfSome result (λ read. text.now ≡ between front.now read.0.now read.1.now) }
    ensures found { (value rest : List ℕ) → text.now ≡ between front.now (escape value) rest
        → IsSomeAnd result (λ read. (read.0.now ≡ escape value) × (read.1.now ≡ rest)) }
{
    let begun = strip(text, front)?;
    let (value, rest) = begun.split_at(string_len(begun));
    let rest = strip(rest, b"\"")?;
    Some((value, rest))
}

/// How many bytes stand before the quote that closes a string.
fn string_len(text: &[u8]) -> usize
    ensures value { result ≡ spec.string_len false text.now }
    ensures within { result ≤ length text.now }
{
    // Nearly no string has a backslash, so its quote is mostly the first of both.
    let front = unmarked_len(text);
    let (_, rest) = text.split_at(front);
    front + marked_len(rest)
}

/// How many bytes stand before the first quote or backslash.
fn unmarked_len(text: &[u8]) -> usize
    ensures value { result ≡ prefix_len spec.is_unmarked text.now }
    ensures within { result ≤ length text.now }
{
    text.iter().take_while(|&&b| is_unmarked(b)).count()
}

/// Whether the byte is neither a quote nor a backslash.
fn is_unmarked(byte: u8) -> bool
    ensures { result ≡ spec.is_unmarked byte }
{
    byte != b'"' && byte != b'\\'
}

/// How many bytes stand before the quote that closes a string, of which some may be escaped.
fn marked_len(text: &[u8]) -> usize
    ensures value { result ≡ spec.string_len false text.now }
    ensures within { result ≤ length text.now }
{
    let mut len = 0;
    let mut escaped = false;
    for byte in text {
        if is_mark(escaped, *byte, b'"') {
            return len;
        }
        escaped = is_mark(escaped, *byte, b'\\');
        len += 1;
    }
    len
}

/// Whether the byte is such a mark and isn't escaped.
fn is_mark(escaped: bool, byte: u8, mark: u8) -> bool
    ensures { result ≡ spec.is_mark escaped byte mark }
{
    !escaped && byte == mark
}
