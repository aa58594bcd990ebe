//! What opens at a place of a page.
ghost use Rattle.std.specs.Prelude.{◌≡◌, ◌≤◌, length, drop};
ghost use Rattle.std.specs.Char.{is_ascii_alphabetic};
ghost use Rattle.html_rewrite.specs.Bytes.{begins};
ghost use Rattle.html_rewrite.specs.Split as spec;

/// What opens at a place.
#[derive(Clone, Copy)]
pub enum Opening {
    /// `<!--`
    Comment,
    /// `<!` or `<?`
    Declaration,
    /// `</` and a letter.
    EndTag,
    /// `<` and a letter.
    StartTag,
    /// None of these.
    Other,
}

/// What opens at the front of the text.
#[tactic(auto, unfolding(crate::specs::Split::opening_at))]
pub fn opening_at(text: &[u8]) -> Opening
    ensures value { result ≡ spec.opening_at text.now }
    ensures long { spec.opening_len result ≤ length text.now }
{
    if text.starts_with(b"<!--") {
        return Opening::Comment;
    }
    if text.starts_with(b"<!") || text.starts_with(b"<?") {
        return Opening::Declaration;
    }
    if text.starts_with(b"</") && begins_with_letter(&text[2..]) {
        return Opening::EndTag;
    }
    if text.starts_with(b"<") && begins_with_letter(&text[1..]) {
        return Opening::StartTag;
    }
    Opening::Other
}

/// Whether a letter of ASCII stands at the front.
fn begins_with_letter(text: &[u8]) -> bool
    ensures { result ≡ begins is_ascii_alphabetic text.now }
{
    match text {
        [first, ..] => first.is_ascii_alphabetic(),
        [] => false,
    }
}
