//! The copies that readers take.
ghost use Rattle.std.specs.Prelude.{◌≡◌, OnErr, OnOk};
ghost use Rattle.index_snapshot.specs.Entries.{absorbed};

use crate::note::Note;
use cdxj_index::{Index, SharedEntry};
use left_right::Absorb;
use std::alloc::{AllocError, Global};
use std::collections::LinkedList;

/// The entry that an item brings, if it brings one.
pub type Place = Option<SharedEntry>;

/// The entry of an item that is added, and the list with that item.
#[derive(Drop)]
pub struct Addition<E> {
    pub place: Place,
    pub note: Note<E>,
}

/// A copy of the index, with the list that it stands for.
#[derive(Drop)]
pub struct Listing<E> {
    pub alloc: Global,
    pub index: Index,
    pub note: Note<E>,
}

/// What a reader or the publisher knows of the copies: which list they are of. No value of it is made.
pub type Knows<E> = LinkedList<Note<E>>;

impl<E> Absorb<Addition<E>> for Listing<E> {
    ghost use Rattle.index_snapshot.specs.Publishing.{applied};

    type State = (Index, Note<E>);

    ghost state = { λ s. (s.index, s.note) };

    ghost applied = { applied };

    fn absorb_first(
        &mut self,
        operation: &Addition<E>,
        _other: &Listing<E>,
    ) -> Result<(), AllocError> {
        absorb(self.alloc, &mut self.index, &operation.place)?;
        self.note = operation.note.again();
        Ok(())
    }
}

/// Puts an entry into the index, if there is one, and none of its number there.
fn absorb(alloc: Global, index: &mut Index, place: &Place) -> Result<(), AllocError>
    ensures ok { OnOk result (index.new ≡ absorbed index.old place.now) }
    ensures err { OnErr result (index.new ≡ index.old) }
{
    let Some(shared) = place else {
        return Ok(());
    };
    if index.at(shared.entry().number).is_some() {
        return Ok(());
    }
    let Ok(entry) = shared.share() else {
        return Err(AllocError);
    };
    match index.add_shared(alloc, entry) {
        Ok(()) => Ok(()),
        Err(_) => Err(AllocError),
    }
}
