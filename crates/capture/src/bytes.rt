//! A list of bytes that owns its memory.
ghost use Rattle.std.specs.Prelude.{◌≡◌, ◌==◌, nat_eq, IfOk};
ghost use Rattle.std.specs.Cmp.{partial_equiv_from_equiv};
ghost use Rattle.std.specs.Cmp.Lexicographic.{pointwise, nat_list_eq_equiv};

use crate::Memory;
use std::alloc::Global;
use std::marker::Model;

/// Bytes of a message, in order. A contract sees the list of them.
#[derive(Drop)]
pub struct Bytes {
    list: Vec<u8>,
}

impl Model for Bytes {
    ghost use Rattle.std.specs.Prelude.{List, ℕ};

    ghost Value = { List ℕ };

    ghost view = { λ b. b.list.items };
}

impl Bytes {
    /// These bytes. Takes no memory.
    pub fn of(list: Vec<u8>) -> Bytes
        ensures { result ≡ list.items }
    {
        Bytes { list }
    }

    /// A copy of these bytes.
    pub fn from_slice(alloc: Global, bytes: &[u8]) -> Result<Bytes, Memory>
        ensures { IfOk result (λ b. b ≡ bytes.now) }
    {
        Ok(Bytes {
            list: Vec::from_slice(alloc, bytes)?,
        })
    }

    /// The bytes in place.
    pub fn as_slice(&self) -> &[u8]
        ensures { result.now ≡ self.now }
    {
        self.list.as_slice()
    }

    /// The list that was these bytes. Takes no memory.
    pub fn into_vec(self) -> Vec<u8>
        ensures { result.items ≡ self }
    {
        let Bytes { list } = self;
        list
    }

    /// The same bytes in memory of their own.
    pub fn copy(&self) -> Result<Bytes, Memory>
        ensures { IfOk result (λ b. b ≡ self.now) }
    {
        Bytes::from_slice(*self.list.allocator(), self.as_slice())
    }
}

impl PartialEq for Bytes {
    ghost eq = { λ a b. pointwise nat_eq a b };

    ghost laws = { partial_equiv_from_equiv nat_list_eq_equiv };

    fn eq(&self, other: &Bytes) -> bool {
        self.as_slice() == other.as_slice()
    }
}

impl Eq for Bytes {
    ghost laws = { nat_list_eq_equiv };
}
