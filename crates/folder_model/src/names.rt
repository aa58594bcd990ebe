//! What takes the names of a folder's list.
ghost use Rattle.std.specs.Prelude.{◌≡◌, ◌∷◌, ◌++◌, [], List, ℕ, OnOk};

use capture::Bytes;
use std::alloc::AllocError;
use std::marker::Model;

/// Takes names, one after the other.
pub trait Names {
    /// The names that it was given, in their order.
    ghost given: { Self → List (List ℕ) };

    /// Takes a name.
    fn add(&mut self, name: &str) -> Result<(), AllocError>
        ensures { OnOk result (given self.new ≡ given self.old ++ name.now ∷ []) };
}

/// Names as clauses see them: the list of their texts. Who takes names keeps it as a `Shown<NameList>`; no program makes one.
#[derive(Drop)]
pub struct NameList {
    names: Vec<Bytes>,
}

impl Model for NameList {
    ghost use Rattle.std.specs.Prelude.{List, ℕ};

    ghost Value = { List (List ℕ) };

    ghost view = { λ n. n.names.items };
}
