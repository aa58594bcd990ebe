//! A type by which clauses speak of what was done in a folder.
use std::marker::Model;

/// Clauses see a value of this type as what was done in a folder. The program makes none: a `Shown<Told>` holds what clauses alone know.
pub struct Told {
    there: bool,
}

impl Model for Told {
    ghost use Rattle.std.specs.Prelude.{[]};
    ghost use Rattle.memory_folder.specs.Past.{Recorded};

    ghost Value = { Recorded };

    ghost view = { λ t. record { first = []; there = t.there; deeds = [] } };
}
