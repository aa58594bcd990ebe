//! A capture of a book, of which only clauses know.
ghost use Rattle.std.specs.Prelude.{◌≡◌};
ghost use Rattle.capture.specs.declared.captured.Stored.{Stored as Capture};
ghost use Rattle.archive_shelf.specs.Storing.{as_stored};
ghost use Rattle.archive_volumes.specs.Held.{stored_in};

use capture::{Stored, Taken};
use shown::Shown;

/// A capture as it stands in a book. It takes no memory, and only clauses see it.
#[derive(Drop)]
pub struct StoredGhost {
    pub shown: Shown<Stored>,
}

/// A capture that was taken, and the one to which it refers, if to any.
#[derive(Drop)]
struct Referring<'t> {
    taken: &'t Taken,
    same: Option<u32>,
}

impl StoredGhost {
    /// This capture.
    pub fn of(stored: &Stored) -> StoredGhost
        ensures { stored_in result ≡ stored.now }
    {
        StoredGhost {
            shown: Shown::told_by(stored),
        }
    }

    /// A capture that was taken, where it refers to this one, if to any.
    pub fn of_taken(taken: &Taken, same: Option<u32>) -> StoredGhost
        ensures { stored_in result ≡ as_stored taken.now same }
    {
        let referring = Referring { taken, same };
        StoredGhost {
            shown: Shown::told_by(&referring),
        }
    }

    /// The capture that the caller's proof names. It may be made of what is passed, and of ghost values that the caller has.
    pub fn named_by<A>(from: &A) -> StoredGhost
        ghost named: { Capture }
        ensures { stored_in result ≡ named }
    {
        StoredGhost {
            shown: Shown::told_by(from),
        }
    }
}
