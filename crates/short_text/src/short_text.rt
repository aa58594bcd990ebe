//! A text of ASCII that lies in the value itself where it is short.
ghost use Rattle.std.specs.Prelude.{◌≡◌, nat_eq, IfOk, IsAscii};
ghost use Rattle.std.specs.Cmp.{partial_equiv_from_equiv};
ghost use Rattle.std.specs.Cmp.Lexicographic.{pointwise, nat_list_eq_equiv};

use arrayvec::ArrayString;
use capture::{Memory, Text};
use std::alloc::Global;
use std::marker::Model;

/// How many bytes lie in the value itself: enough for the names of methods and of most media types.
const SHORT: usize = 16;

/// A text of ASCII that takes memory of its own only where it has more than 16 bytes. A contract sees the list of its bytes.
#[derive(Drop)]
pub struct ShortText {
    kept: Kept,
}

/// Where the bytes lie.
#[derive(Drop)]
pub(crate) enum Kept {
    Here(ArrayString<SHORT>),
    Apart(Text),
}

impl Model for ShortText {
    ghost use Rattle.std.specs.Prelude.{List, ℕ, IsAscii};
    ghost use Rattle.short_text.specs.Kept.{bytes_of};

    ghost Value = { List ℕ };

    ghost view = { λ t. bytes_of t.kept };

    ghost invariant = { λ t. IsAscii (bytes_of t.kept) };
}

impl ShortText {
    /// The same text; where it is short, the memory that it had is let go. Takes no memory.
    pub fn of(text: Text) -> ShortText
        ensures { result ≡ text }
    {
        match ArrayString::from(text.as_str()) {
            Ok(here) => ShortText {
                kept: Kept::Here(here),
            },
            Err(_) => ShortText {
                kept: Kept::Apart(text),
            },
        }
    }

    /// A copy of a text. It takes memory only where the text isn't short.
    pub fn copy_of(text: &Text) -> Result<ShortText, Memory>
        ensures { IfOk result (λ t. t ≡ text.now) }
    {
        let kept = match ArrayString::from(text.as_str()) {
            Ok(here) => Kept::Here(here),
            Err(_) => Kept::Apart(text.copy()?),
        };
        Ok(ShortText { kept })
    }

    /// A copy of a text of ASCII. It takes memory only where the text isn't short.
    pub fn from_str(alloc: Global, text: &str) -> Result<ShortText, Memory>
        requires { IsAscii text.now }
        ensures { IfOk result (λ t. t ≡ text.now) }
    {
        let kept = match ArrayString::from(text) {
            Ok(here) => Kept::Here(here),
            Err(_) => Kept::Apart(Text::from_str(alloc, text)?),
        };
        Ok(ShortText { kept })
    }

    /// The bytes in place.
    pub fn as_slice(&self) -> &[u8]
        ensures value { result.now ≡ self.now }
        ensures ascii { IsAscii self.now }
    {
        self.as_str().as_bytes()
    }

    /// The text in place.
    pub fn as_str(&self) -> &str
        ensures value { result.now ≡ self.now }
        ensures ascii { IsAscii self.now }
    {
        match &self.kept {
            Kept::Here(here) => here.as_str(),
            Kept::Apart(text) => text.as_str(),
        }
    }

    /// The same text once more. It takes memory only where the text isn't short.
    pub fn copy(&self) -> Result<ShortText, Memory>
        ensures { IfOk result (λ t. t ≡ self.now) }
    {
        let kept = match &self.kept {
            Kept::Here(here) => Kept::Here(*here),
            Kept::Apart(text) => Kept::Apart(text.copy()?),
        };
        Ok(ShortText { kept })
    }

    /// The same text in memory of its own.
    pub fn to_text(&self, alloc: Global) -> Result<Text, Memory>
        ensures { IfOk result (λ t. t ≡ self.now) }
    {
        Text::from_str(alloc, self.as_str())
    }
}

impl PartialEq for ShortText {
    ghost eq = { λ a b. pointwise nat_eq a b };

    ghost laws = { partial_equiv_from_equiv nat_list_eq_equiv };

    fn eq(&self, other: &ShortText) -> bool {
        self.as_slice() == other.as_slice()
    }
}

impl Eq for ShortText {
    ghost laws = { nat_list_eq_equiv };
}
