//! The archive over a disk.
ghost use Rattle.std.specs.List.{starts_with};
ghost use Rattle.std.specs.Prelude.{◌≡◌, Contains, IfNone, IfOk, IfSome, IsTrue, Some, bytes_eq, nat_eq, option_copied};
ghost use Rattle.index_entry.specs.Queries.{with_number};
ghost use Rattle.warc_journal.specs.Journals.{disk_of};
ghost use Rattle.archive_shelf.specs.Answers.{ShowsNone};
ghost use Rattle.archive_shelf.specs.Queries.{ArePicked, IsFound};
ghost use Rattle.archive_shelf.specs.Storing.{counts_of};
ghost use Rattle.archive_core.specs.Holdings.{contents_of};
ghost use Rattle.archive_index.specs.Shown.{numbered};
ghost use Rattle.archive_core.specs.Stores.{Admits};
ghost use Rattle.archive_volumes.specs.Facts.{facts_of};
ghost use Rattle.archive_volumes.specs.Held.{book_of};
ghost use Rattle.archive_volumes.specs.Volumes.{OpensNear};

use archive_index::{nearest, starting, with_key};
use archive_shelf::{Counts, Finder, StoreFault};
use archive_volumes::{Held, Spot, VolumeFacts, Volumes};
use capture::{Limits, Memory};
use cdxj_index::Index;
use disk_model::{Disk, MemoryDisk};
use index_entry::Entry;
use revisit_table::Digests;
use shown::Shown;
use std::alloc::Global;
use std::marker::Model;
use surt_key::Key;
use uuid::Uuid;

/// An archive over a disk, in which nobody else stores. A clause sees its journal, its book and what is kept of that.
#[derive(Drop)]
pub struct Archive<D: Disk> {
    /// The volumes, and the book that they hold.
    pub volumes: Volumes<D>,
    /// The captures that are found by date.
    pub index: Index,
    /// The captures that keep their whole wire, by the digests of their payloads.
    pub table: Digests,
    /// Where the captures stand.
    pub spots: Vec<Spot>,
    /// How much it takes.
    pub limits: Limits,
    /// How many captures it found when it was opened.
    pub found: u32,
    /// How many captures refer to an earlier one.
    pub revisits: u32,
    /// How many of the first volumes were settled: where the book is told, their checkpoints are finished.
    pub settled: u32,
    /// Whether it is told what the book has.
    pub told: Shown<bool>,
}

impl<D: Disk> Model for Archive<D> {
    ghost use Rattle.archive_core.specs.Holdings.{Holdings, IsArchive};

    ghost Value = { Holdings D };

    ghost use Rattle.archive_core.specs.View.{holdings_of};

    ghost view = { λ a. holdings_of a };

    ghost invariant = { λ a. IsArchive D.Disk (holdings_of a) };
}

impl<D: Disk> Archive<D> {
    /// How many captures, revisits and volumes there are.
    pub fn counts(&self) -> Counts
        ensures { result ≡ counts_of self.now.book }
    {
        Counts {
            captures: self.spots.len() as u32,
            revisits: self.revisits,
            volumes: self.volumes.journal.volumes(),
        }
    }

    /// How many faults of the disk it has met.
    pub fn faults(&self) -> u64
        ensures { result ≡ D.faults (disk_of self.now.journal) }
    {
        self.volumes.journal.faults()
    }

    /// The entry that is shown under a number; none exactly where none is. Takes no memory.
    pub fn entry(&self, number: u32) -> Option<&Entry>
        ensures indexed { option_copied result ≡ with_number number self.now.index }
        ensures shown { IfSome (option_copied result) (λ e. Contains (contents_of self.now).shown e) }
        ensures number { IfSome (option_copied result) (λ e. e.number ≡ number) }
        ensures none { IfNone (option_copied result) (ShowsNone (contents_of self.now) number) }
    {
        self.index.at(number)
    }

    /// The namespace of its ids.
    pub fn namespace(&self) -> &Uuid
        ensures { result.now ≡ self.now.book.namespace }
    {
        &self.volumes.held.namespace
    }

    /// How much it takes.
    pub fn limits(&self) -> Limits
        ensures { result ≡ self.now.limits }
    {
        self.limits
    }

    /// Its book, without its bytes.
    pub fn held(&self) -> &Held
        ensures { book_of result.now ≡ self.now.book }
    {
        &self.volumes.held
    }

    /// Its volumes, in order: each with the number of its first capture, and how many it has.
    pub fn volumes(&self, alloc: Global) -> Result<Vec<VolumeFacts>, Memory>
        ensures { IfOk result (λ facts. facts.items ≡ facts_of self.now.book) }
    {
        self.volumes.held.facts(alloc)
    }

    /// A copy of the entry of a key that is nearest to a time.
    pub fn nearest(&self, key: &Key, time: u64) -> Result<Option<Entry>, Memory>
        ensures { IfOk result (λ entry. IsFound (numbered self.now.index) key.now time entry) }
    {
        nearest(&self.index, key, time)
    }

    /// Copies of the entries of a key, in order of date and number.
    pub fn entries_of(&self, alloc: Global, key: &Key) -> Result<Vec<Entry>, Memory>
        ensures { IfOk result (λ entries. ArePicked (λ e. bytes_eq key.now e.key) (numbered self.now.index) entries.items) }
    {
        with_key(alloc, &self.index, key)
    }

    /// Copies of the entries whose key begins with these bytes, in order of key, date and number.
    pub fn entries_from(&self, alloc: Global, start: &Key) -> Result<Vec<Entry>, Memory>
        ensures { IfOk result (λ entries. ArePicked (λ e. starts_with nat_eq e.key start.now) (numbered self.now.index) entries.items) }
    {
        starting(alloc, &self.index, start)
    }

    /// Refuses a capture more where there are as many as there may be.
    pub fn check_room(&self) -> Result<(), StoreFault>
        ensures { Admits (contents_of self.now) result }
    {
        let count = self.spots.len() as u32;
        let limit = self.limits.captures;
        if count >= limit {
            return Err(StoreFault::Full { count, limit });
        }
        Ok(())
    }

    /// Gives the disk back. Where the book is told, what a read gives and what a crash may leave stand for sound books, the one
    /// that was seen last or one next to it.
    pub fn close(self) -> D
        ensures disk { result ≡ disk_of self.journal }
        ensures near { IsTrue self.told → OpensNear D.Disk result self.book }
    {
        self.volumes.journal.into_disk()
    }
}

impl Archive<MemoryDisk> {
    /// The same archive, with a fuse on its disk: so many further calls of the disk pass, and then each fails.
    pub fn fused(self, calls: u64) -> Archive<MemoryDisk>
        ensures { result ≡ record self { journal = record self.journal { disk = record self.journal.disk { fuse = Some calls } } } }
    {
        let Volumes { journal, held } = self.volumes;
        Archive {
            volumes: Volumes {
                journal: journal.fused(calls),
                held,
            },
            index: self.index,
            table: self.table,
            spots: self.spots,
            limits: self.limits,
            found: self.found,
            revisits: self.revisits,
            settled: self.settled,
            told: self.told,
        }
    }
}

impl<D: Disk> Finder for Archive<D> {
    ghost use Rattle.std.specs.Prelude.{true};
    ghost use Rattle.archive_core.specs.Told.{told_of};
    ghost use Rattle.warc_journal.specs.Journals.{disk_of};

    ghost alone = { true };

    ghost told = { λ a. told_of D.Disk a };

    ghost earlier = { λ a t s book le opened.
        (opened.0, opened.1, D.earlier (disk_of a.journal) t s opened.1 le opened.2, opened.3) };

    ghost covered_later = { λ a t s le all told image left. all told image (D.earlier (disk_of a.journal) t s image le left) };

    fn by_date(&mut self, _alloc: Global, key: &Key, time: u64) -> Result<Option<Entry>, Memory> {
        self.shows_its_book();
        self.nearest(key, time)
    }

    fn map(&mut self, alloc: Global, key: &Key) -> Result<Vec<Entry>, Memory> {
        self.shows_its_book();
        self.entries_of(alloc, key)
    }

    fn starting(&mut self, alloc: Global, start: &Key) -> Result<Vec<Entry>, Memory> {
        self.shows_its_book();
        self.entries_from(alloc, start)
    }
}
