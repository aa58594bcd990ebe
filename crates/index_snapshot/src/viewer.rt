//! Readers.
ghost use Rattle.std.specs.Prelude.{◌≡◌, ◌⊎◌, MatchResult};
ghost use mathlib.Core.List.{IsPrefix};
ghost use Rattle.left_right.specs.Sides.{view};
ghost use Rattle.index_snapshot.specs.Entries.{HasEntries, entries_in};
ghost use Rattle.index_snapshot.specs.Listings.{AllOf, IsTied, Names};

use crate::items::Brings;
use crate::listing::{Knows, Listing};
use crate::note::Note;
use cdxj_index::Index;
use crossbeam_utils::rule::{Outcome, Protocol};
use left_right::reader::{Reader, Reading};
use std::marker::{Model, PhantomData};

/// The rule of the copies.
pub struct Tied<B> {
    marker: PhantomData<B>,
}

impl<E, B: Brings<E>> Protocol<Listing<E>, Knows<E>> for Tied<B> {
    ghost use Rattle.std.specs.Prelude.{[]};
    ghost use Rattle.index_snapshot.specs.Listings.{Holds};

    ghost holds = { λ copy views. Holds B.entries B.fits copy views };

    ghost first = { [] };
}

/// A look at the copy that is shown, or a publication that isn't the first.
pub(crate) struct Look<B> {
    marker: PhantomData<B>,
}

impl<E, B: Brings<E>> Outcome<Listing<E>, Knows<E>> for Look<B> {
    ghost use Rattle.index_snapshot.specs.Listings.{Sees};

    ghost then = { λ v x y w. Sees B.entries B.fits v x y w };
}

/// A reader, which knows a beginning of the list.
#[derive(Drop)]
pub struct Viewer<E, B: Brings<E>> {
    pub(crate) reader: Reader<Listing<E>, Knows<E>, Tied<B>>,
    pub(crate) note: Note<E>,
}

impl<E, B: Brings<E>> Model for Viewer<E, B> {
    ghost use Rattle.left_right.specs.Sides.{view as known};
    ghost use Rattle.index_snapshot.specs.Edges.{Edge};
    ghost use Rattle.index_snapshot.specs.Listings.{Names};

    ghost Value = { Edge E };

    ghost view = { λ v. v.note };

    ghost invariant = { λ v. Names v.note.of (known v.reader.place) };
}

/// The list as a reader sees it. It stays while this is held.
pub struct View<E, B: Brings<E>> {
    reading: Reading<Listing<E>, Knows<E>, Tied<B>>,
    note: Note<E>,
}

impl<E, B: Brings<E>> Model for View<E, B> {
    ghost use Rattle.left_right.specs.Sides.{view as known};
    ghost use Rattle.index_snapshot.specs.Edges.{Edge};
    ghost use Rattle.index_snapshot.specs.Listings.{IsOf, Names};

    ghost Value = { Edge E };

    ghost view = { λ v. v.note };

    ghost invariant = { λ v. Names v.note.of (known v.reading.place) × IsOf B.entries B.fits v.reading.part.value.index v.note.items };
}

impl<E, B: Brings<E>> Viewer<E, B> {
    /// Takes in what the publisher told.
    pub fn learn(&mut self, note: &Note<E>)
        requires { note.now.of ≡ self.old.of }
        ensures of { self.new.of ≡ self.old.of }
        ensures before { IsPrefix self.old.items self.new.items }
        ensures told { IsPrefix note.now.items self.new.items }
        ensures one { (self.new.items ≡ self.old.items) ⊎ (self.new.items ≡ note.now.items) }
    {
        if self.note.begins(note) {
            self.note = note.again();
        }
    }

    /// All that it saw or was told.
    pub fn note(&self) -> Note<E>
        ensures { result ≡ self.now }
    {
        self.note.again()
    }

    /// The list that is published, which begins with all that was seen before and all that was told. None where the publisher
    /// is gone.
    pub fn enter(self) -> Result<View<E, B>, Viewer<E, B>>
        ensures { MatchResult result (λ view. (view.of ≡ self.of) × IsPrefix self.items view.items) (λ viewer. viewer ≡ self) }
    {
        let Viewer { reader, note } = self;
        match reader.enter_as::<Look<B>>() {
            Ok(reading) => seen(reading, note),
            Err(reader) => Err(Viewer { reader, note }),
        }
    }
}

/// What was taken, if the list didn't become shorter.
fn seen<E, B: Brings<E>>(
    reading: Reading<Listing<E>, Knows<E>, Tied<B>>,
    note: Note<E>,
) -> Result<View<E, B>, Viewer<E, B>>
    requires names { Names note.of (view reading.place) }
    requires tied { IsTied B.entries B.fits reading.part.value }
    requires all { AllOf reading.part.value.note.of (view reading.place) }
    ensures { MatchResult result (λ view. (view.of ≡ note.of) × IsPrefix note.items view.items) (λ viewer. viewer ≡ note) }
{
    let shown = reading.get().note.again();
    if note.begins(&shown) {
        Ok(View {
            reading,
            note: shown,
        })
    } else {
        Err(Viewer {
            reader: reading.leave(),
            note,
        })
    }
}

impl<E, B: Brings<E>> View<E, B> {
    /// The index, which finds under each number the entry that the items bring. The items fit together.
    pub fn index(&self) -> &Index
        ensures has { HasEntries result.now (entries_in B.entries self.now.items) }
        ensures fits { B.fits self.now.items }
    {
        &self.reading.get().index
    }

    /// The list that is seen.
    pub fn note(&self) -> &Note<E>
        ensures { result.now ≡ self.now }
    {
        &self.note
    }

    /// The reader, which has seen the list.
    pub fn leave(self) -> Viewer<E, B>
        ensures { result ≡ self }
    {
        let View { reading, note } = self;
        Viewer {
            reader: reading.leave(),
            note,
        }
    }
}
