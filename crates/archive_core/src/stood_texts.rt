//! What stood finished in an archive's volumes at a moment, of which clauses alone know.
use std::marker::Model;

/// Clauses see a value of this type as what stood finished in an archive's volumes at a moment. The program makes none: a `Shown<StoodTexts>` holds what clauses alone
/// know.
#[derive(Drop)]
pub struct StoodTexts {
    moment: u64,
}

impl Model for StoodTexts {
    ghost use Rattle.std.specs.Prelude.{[]};
    ghost use Rattle.archive_shelf.specs.Storing.{empty_book};
    ghost use Rattle.archive_core.specs.Stood.{Stood};

    ghost Value = { Stood };

    ghost view = { λ s. record { book = empty_book []; finished = []; moment = s.moment; faults = 0 } };
}
