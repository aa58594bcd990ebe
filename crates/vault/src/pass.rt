//! The passes of a vault.
ghost use Rattle.std.specs.Prelude.{◌≡◌, ◌+◌, ◌≤◌, ◌++◌, [], ◌∷◌, IsTrue, map, vec_len};
ghost use Rattle.std.specs.List.{All};
ghost use Rattle.std.specs.Vec.{vec_capacity};
ghost use Rattle.vault_turns.specs.History.{is_told, told_book};
ghost use Rattle.vault_turns.specs.Listing.{HasEntries, IsListed};

use history_lock::Pass;
use index_snapshot::Viewer;
use std::marker::Model;
use vault_lists::{Books, Item, Listed};
use vault_turns::Noted;

/// The right to take turns at one vault. It knows the history that it saw last, and the list of books that it has seen by date, and
/// nothing of the disk.
#[derive(Drop)]
pub struct VaultPass {
    pub(crate) known: Pass<Noted>,
    pub(crate) viewer: Viewer<Item, Books>,
    /// The list as it stood at its last turn.
    pub(crate) listed: Listed,
}

impl Model for VaultPass {
    ghost use Rattle.vault.specs.Company.{Passing};
    ghost use Rattle.vault_turns.specs.History.{Names};
    ghost use Rattle.vault_turns.specs.Listing.{IsListed};

    ghost Value = { Passing };

    ghost view = { λ p. record { known = p.known; shown = p.viewer } };

    ghost invariant = { λ p. Names p.known.seen p.viewer.of × IsListed p.known.seen p.listed.note p.listed.whole };
}

impl VaultPass {
    /// The number that the entries of its turns name.
    pub fn number(&self) -> u32
        ensures { result ≡ self.now.known.number }
    {
        self.known.number()
    }

    /// Whether it has seen by date all that it knows to be stored.
    pub(crate) fn shows_all(&self) -> bool {
        if !self.listed.whole {
            return false;
        }
        let shown = self.viewer.note();
        self.listed.note.begins(&shown)
    }

    /// Where the disk is told, the book that it has seen has entries.
    pub(crate) fn has_entries(&self)
        ensures { IsTrue (is_told self.now.known.seen) → HasEntries (told_book self.now.known.seen) }
    {
        let _ = &self.listed;
    }

    /// What the lock knows of it.
    pub(crate) fn into_known(self) -> Pass<Noted>
        ensures { result ≡ self.known }
    {
        self.known
    }
}

/// Gives each of these passes a viewer.
pub(crate) fn seat_all(
    made: Vec<Pass<Noted>>,
    viewers: &mut Vec<Viewer<Item, Books>>,
    listed: &Listed,
    room: &mut Vec<VaultPass>,
)
    requires none { room.old.items ≡ [] }
    requires room { vec_len made ≤ vec_capacity room.old }
    requires many { vec_len made ≤ vec_len viewers.old }
    requires viewers { All (λ v. v ≡ listed.now.note) viewers.old.items }
    requires listed { All (λ p. IsListed p.seen listed.now.note listed.now.whole) made.items }
    ensures known { map (λ p. p.known) room.new.items ≡ made.items }
    ensures shown { All (λ p. p.shown ≡ listed.now.note) room.new.items }
    ensures count { vec_len room.new ≡ vec_len made }
{
    let mut queue = made.into_iter();
    'seating: while let Some(known) = queue.next() {
        seat(known, viewers, listed, room);
    }
    queue.destroy_empty();
}

/// Gives a pass a viewer.
fn seat(
    known: Pass<Noted>,
    viewers: &mut Vec<Viewer<Item, Books>>,
    listed: &Listed,
    room: &mut Vec<VaultPass>,
)
    requires room { vec_len room.old + 1 ≤ vec_capacity room.old }
    requires many { 1 ≤ vec_len viewers.old }
    requires viewers { All (λ v. v ≡ listed.now.note) viewers.old.items }
    requires listed { IsListed known.seen listed.now.note listed.now.whole }
    ensures known { map (λ p. p.known) room.new.items ≡ map (λ p. p.known) room.old.items ++ known ∷ [] }
    ensures shown { All (λ p. p.shown ≡ listed.now.note) room.old.items → All (λ p. p.shown ≡ listed.now.note) room.new.items }
    ensures capacity { vec_capacity room.new ≡ vec_capacity room.old }
    ensures viewers { All (λ v. v ≡ listed.now.note) viewers.new.items }
    ensures count { vec_len room.new ≡ vec_len room.old + 1 }
    ensures fewer { vec_len viewers.new + 1 ≡ vec_len viewers.old }
{
    let Some(viewer) = viewers.pop() else {
        unreachable!()
    };
    room.push_reserved(VaultPass {
        known,
        viewer,
        listed: listed.again(),
    });
}
