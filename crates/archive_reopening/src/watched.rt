//! An archive that is watched: what stood finished in its volumes at a moment stands there, and all that was stored since, whatever is called.
ghost use Rattle.std.specs.Prelude.{◌≡◌, IsTrue};
ghost use Rattle.archive_core.specs.Lasting.{KeepsStored};

use archive_core::Archive;
use archive_shelf::{BringFault, Finder, Receipt, Shelf, StoreFault};
use capture::{Brought, Bytes, Memory, Taken};
use disk_model::Disk;
use index_entry::Entry;
use std::alloc::Global;
use std::marker::{Brand, Model, PhantomData};
use surt_key::Key;

/// Names what stood. Each call of a program picks it.
pub trait Since {
    ghost use Rattle.archive_core.specs.Stood.{Stood};

    ghost stood: { Stood };
}

impl Since for Brand {
    ghost use Rattle.archive_core.specs.Stood.{none_stood};

    ghost stood = { none_stood };
}

/// An archive that keeps what its type names. A contract sees it as the archive.
///
/// What comes back from a function over any `S: Shelf` is of the type that it was called with, so it keeps that still.
#[derive(Drop)]
pub struct Watched<D: Disk, S: Since> {
    archive: Archive<D>,
    since: PhantomData<S>,
}

impl<D: Disk, S: Since> Model for Watched<D, S> {
    ghost use Rattle.std.specs.Prelude.{IsTrue};
    ghost use Rattle.archive_core.specs.Holdings.{Holdings};
    ghost use Rattle.archive_core.specs.Lasting.{KeepsStored};

    ghost Value = { Holdings D };

    ghost view = { λ w. w.archive };

    ghost invariant = { λ w. IsTrue D.tells → KeepsStored D.Disk S.stood w.archive };
}

impl<D: Disk, S: Since> Watched<D, S> {
    /// Watches an archive.
    pub fn over(archive: Archive<D>) -> Watched<D, S>
        requires { IsTrue D.tells → KeepsStored D.Disk S.stood archive }
        ensures { result ≡ archive }
    {
        Watched {
            archive,
            since: PhantomData,
        }
    }

    /// The archive, which keeps it still.
    pub fn into_archive(self) -> Archive<D>
        ensures archive { result ≡ self }
        ensures keeps { IsTrue D.tells → KeepsStored D.Disk S.stood result }
    {
        let Watched { archive, since: _ } = self;
        archive
    }
}

impl<D: Disk, S: Since> Finder for Watched<D, S> {
    ghost use Rattle.std.specs.Prelude.{true};
    ghost use Rattle.archive_core.specs.Told.{told_of};
    ghost use Rattle.warc_journal.specs.Journals.{disk_of};

    ghost alone = { true };

    ghost told = { λ w. told_of D.Disk w };

    ghost earlier = { λ w t s book le opened.
        (opened.0, opened.1, D.earlier (disk_of w.journal) t s opened.1 le opened.2, opened.3) };

    ghost covered_later = { λ w t s le all told image left. all told image (D.earlier (disk_of w.journal) t s image le left) };

    fn by_date(&mut self, _alloc: Global, key: &Key, time: u64) -> Result<Option<Entry>, Memory> {
        self.archive.shows_its_book();
        self.archive.nearest(key, time)
    }

    fn map(&mut self, alloc: Global, key: &Key) -> Result<Vec<Entry>, Memory> {
        self.archive.shows_its_book();
        self.archive.entries_of(alloc, key)
    }

    fn starting(&mut self, alloc: Global, start: &Key) -> Result<Vec<Entry>, Memory> {
        self.archive.shows_its_book();
        self.archive.entries_from(alloc, start)
    }
}

impl<D: Disk, S: Since> Shelf for Watched<D, S> {
    fn store(&mut self, alloc: Global, taken: &Taken) -> Result<Receipt, StoreFault> {
        let answer = self.archive.store_new(alloc, taken);
        self.archive.shows_its_book();
        answer
    }

    fn bring(&mut self, alloc: Global, number: u32) -> Result<Brought, BringFault> {
        let answer = self.archive.bring_numbered(alloc, number);
        self.archive.shows_its_book();
        answer
    }

    fn piece(&mut self, alloc: Global, number: u32) -> Result<Bytes, BringFault> {
        let answer = self.archive.piece_numbered(alloc, number);
        self.archive.shows_its_book();
        answer
    }

    fn catch_up(&mut self, _alloc: Global) {
        self.archive.shows_its_book();
    }
}
