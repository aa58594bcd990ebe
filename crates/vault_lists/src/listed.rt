//! What a turn tells of the list that is published.
ghost use mathlib.Core.List.{IsPrefix};
ghost use Rattle.std.specs.Prelude.{◌≡◌, ◌⊎◌, IsTrue};

use crate::item::Item;
use index_snapshot::Note;

/// All that was appended to the list, and whether it has the book that the history tells.
#[derive(Drop)]
pub struct Listed {
    pub note: Note<Item>,
    pub whole: bool,
}

impl Listed {
    /// The same.
    pub fn again(&self) -> Listed
        ensures { (result.note ≡ self.now.note) × (result.whole ≡ self.now.whole) }
    {
        Listed {
            note: self.note.again(),
            whole: self.whole,
        }
    }
}

/// The longer list of two: it has the books of both.
pub fn longer(listed: Listed, other: Listed) -> Listed
    requires { other.note.of ≡ listed.note.of }
    ensures of { result.note.of ≡ listed.note.of }
    ensures one { (result.note ≡ listed.note) ⊎ (result.note ≡ other.note) }
    ensures first { IsPrefix listed.note.items result.note.items }
    ensures second { IsPrefix other.note.items result.note.items }
    ensures whole { IsTrue result.whole → IsTrue listed.whole × IsTrue other.whole }
{
    let whole = both(listed.whole, other.whole);
    if listed.note.begins(&other.note) {
        Listed {
            note: other.note,
            whole,
        }
    } else {
        Listed {
            note: listed.note,
            whole,
        }
    }
}

/// Whether both are true.
fn both(one: bool, other: bool) -> bool
    ensures { IsTrue result → IsTrue one × IsTrue other }
{
    if one {
        return other;
    }
    false
}
