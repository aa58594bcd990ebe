//! A text of ASCII that owns its memory.
ghost use Rattle.std.specs.Prelude.{◌≡◌, ◌↔◌, [], nat_eq, string_bytes, IsAscii, IsSome, IfSome, IfOk};
ghost use Rattle.std.specs.Cmp.{partial_equiv_from_equiv};
ghost use Rattle.std.specs.Cmp.Lexicographic.{pointwise, nat_list_eq_equiv};

use crate::Memory;
use std::alloc::Global;
use std::marker::Model;

/// A text of ASCII. A contract sees the list of its bytes.
#[derive(Drop)]
pub struct Text {
    text: String,
}

impl Model for Text {
    ghost use Rattle.std.specs.Prelude.{List, ℕ, IsAscii, string_bytes};

    ghost Value = { List ℕ };

    ghost view = { λ t. string_bytes t.text };

    ghost invariant = { λ t. IsAscii (string_bytes t.text) };
}

impl Text {
    /// The text of no bytes. Takes no memory.
    pub fn empty(alloc: Global) -> Text
        ensures { result ≡ [] }
    {
        Text {
            text: String::new(alloc),
        }
    }

    /// The text of these bytes, which is there exactly where each is ASCII. Takes no memory.
    pub fn of(list: Vec<u8>) -> Option<Text>
        ensures ascii { IsSome result ↔ IsAscii list.items }
        ensures value { IfSome result (λ t. t ≡ list.items) }
    {
        if !list.as_slice().is_ascii() {
            return None;
        }
        match String::from_utf8(list) {
            Ok(text) => Some(Text { text }),
            Err(_) => None,
        }
    }

    /// A copy of a text of ASCII.
    pub fn from_str(alloc: Global, text: &str) -> Result<Text, Memory>
        requires { IsAscii text.now }
        ensures { IfOk result (λ t. t ≡ text.now) }
    {
        Ok(Text {
            text: String::from_str(alloc, text)?,
        })
    }

    /// The bytes in place.
    pub fn as_slice(&self) -> &[u8]
        ensures value { result.now ≡ self.now }
        ensures ascii { IsAscii self.now }
    {
        self.text.as_bytes()
    }

    /// The text in place.
    pub fn as_str(&self) -> &str
        ensures value { result.now ≡ self.now }
        ensures ascii { IsAscii self.now }
    {
        self.text.as_str()
    }

    /// The same text in memory of its own.
    pub fn copy(&self) -> Result<Text, Memory>
        ensures { IfOk result (λ t. t ≡ self.now) }
    {
        Ok(Text {
            text: self.text.clone()?,
        })
    }
}

impl PartialEq for Text {
    ghost eq = { λ a b. pointwise nat_eq a b };

    ghost laws = { partial_equiv_from_equiv nat_list_eq_equiv };

    fn eq(&self, other: &Text) -> bool {
        self.as_slice() == other.as_slice()
    }
}

impl Eq for Text {
    ghost laws = { nat_list_eq_equiv };
}
