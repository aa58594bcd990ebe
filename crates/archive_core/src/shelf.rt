//! How an archive is a shelf.
ghost use Rattle.std.specs.Prelude.{IsTrue, true};
ghost use Rattle.warc_journal.specs.Journals.{disk_of};
ghost use Rattle.archive_shelf.specs.Answers.{Brings, CountsIf, NamesKeeper, is_bring_fault};
ghost use Rattle.archive_shelf.specs.Digests.{GoesByDigest};
ghost use Rattle.archive_shelf.specs.Told.{ShowsItsBook};
ghost use Rattle.archive_reading.specs.Digests.{GoesByKept};
ghost use Rattle.archive_volumes.specs.Spots.{AreSpotsOf};
ghost use Rattle.archive_volumes.specs.Volumes.{OpensNear};
ghost use Rattle.archive_core.specs.Bringing.{BringsAsThere};
ghost use Rattle.archive_core.specs.Holdings.{IsArchive, contents_of};
ghost use Rattle.archive_core.specs.Looking.{OnlyLooks};
ghost use Rattle.archive_core.specs.Told.{told_of};

use crate::Archive;
use archive_payloads::bring;
use archive_shelf::{BringFault, Receipt, Shelf, StoreFault};
use capture::{Brought, Bytes, Taken};
use disk_model::Disk;
use std::alloc::Global;

impl<D: Disk> Archive<D> {
    /// The capture with this number, with its payload as it was received. It is what `bring` of the shelf answers, with all that is said of it.
    pub fn bring_numbered(&mut self, alloc: Global, number: u32) -> Result<Brought, BringFault>
        ensures brings { Brings (contents_of self.new) number result }
        ensures names { NamesKeeper self.new.book number result }
        ensures kept { GoesByKept self.old.spots number result }
        ensures there { BringsAsThere D.Disk self.old number result }
        ensures digests { GoesByDigest self.new.book number result }
        ensures looks { OnlyLooks D.Disk self.old self.new }
        ensures faults { CountsIf (is_bring_fault result) (D.faults (disk_of self.old.journal)) (D.faults (disk_of self.new.journal)) }
    {
        let count = self.spots.len() as u32;
        if number >= count {
            return Err(BringFault::NoSuch { count });
        }
        bring(
            &self.told,
            alloc,
            &mut self.volumes,
            self.spots.as_slice(),
            &self.table,
            number,
        )
    }

    /// What holds of an archive at each call. A trait's method has no clause of its own that says it.
    fn is_an_archive(&self)
        ensures { IsArchive D.Disk self.now }
    {
        let _ = &self.limits;
    }

    /// An archive shows its book, whatever was called before: where that is told, which is only of a disk that tells, the book is
    /// sound and its entries are what is shown; what may be opened is next to it. What is kept of each capture is kept of that of
    /// the book, whatever is told.
    pub fn shows_its_book(&self)
        ensures shows { ShowsItsBook true (told_of D.Disk self.now) }
        ensures near { IsTrue self.now.told → OpensNear D.Disk (disk_of self.now.journal) self.now.book }
        ensures tells { IsTrue self.now.told → IsTrue D.tells }
        ensures spots { AreSpotsOf self.now.book self.now.spots }
    {
        self.is_an_archive();
    }
}

impl<D: Disk> Shelf for Archive<D> {
    fn store(&mut self, alloc: Global, taken: &Taken) -> Result<Receipt, StoreFault> {
        let answer = self.store_new(alloc, taken);
        self.shows_its_book();
        answer
    }

    fn bring(&mut self, alloc: Global, number: u32) -> Result<Brought, BringFault> {
        let answer = self.bring_numbered(alloc, number);
        self.shows_its_book();
        answer
    }

    fn piece(&mut self, alloc: Global, number: u32) -> Result<Bytes, BringFault> {
        let answer = self.piece_numbered(alloc, number);
        self.shows_its_book();
        answer
    }

    fn catch_up(&mut self, _alloc: Global) {
        self.shows_its_book();
    }
}
