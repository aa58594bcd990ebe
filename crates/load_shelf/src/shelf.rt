//! A shelf that notes whether the captures of a load are stored on it.
ghost use Rattle.std.specs.Prelude.{◌≡◌, ◌+◌, ◌^◌, ◌<◌, true, IsTrue};
ghost use Rattle.archive_shelf.specs.Openings.{HasJust};
ghost use Rattle.archive_shelf.specs.Storing.{empty_book};
ghost use Rattle.load_maker.specs.Load.{brought_of, taken_of};
ghost use Rattle.load_shelf.specs.Loads.{IsFilled};

use archive_shelf::{BringFault, Finder, Receipt, Shelf, StoreFault};
use capture::{Brought, Bytes, Memory, Taken};
use index_entry::Entry;
use load_maker::{check_brought, check_taken};
use std::alloc::Global;
use std::marker::Model;
use surt_key::Key;

/// A shelf, and whether the captures of a load were stored on it, in order and nothing else. It does just what the shelf does.
#[derive(Drop)]
pub struct LoadShelf<S: Shelf> {
    shelf: S,
    seed: u64,
    /// How many of the load's captures were stored.
    stored: u32,
    /// How many of them were brought back behind that, as they were.
    replayed: u32,
    /// Whether no other was, and no store was refused.
    follows: bool,
}

impl<S: Shelf> Model for LoadShelf<S> {
    ghost use Rattle.load_shelf.specs.Loads.{Follows, Held};

    ghost Value = { Held S };

    ghost view = { λ s. record { shelf = s.shelf; seed = s.seed; stored = s.stored; replayed = s.replayed; follows = s.follows } };

    ghost invariant = { λ s. Follows S.alone (S.told s.shelf) s.seed s.stored s.replayed s.follows };
}

impl<S: Shelf> LoadShelf<S> {
    /// A shelf without volumes, on which a load is to be stored. What its book has is told.
    pub fn new(shelf: S, seed: u64) -> LoadShelf<S>
        requires told { IsTrue (S.told shelf).contents.tells }
        requires empty { (S.told shelf).contents.seen ≡ empty_book (S.told shelf).contents.seen.namespace }
        requires just { HasJust (S.told shelf).reading (S.told shelf).contents.seen }
        ensures { result.shelf ≡ shelf }
    {
        LoadShelf {
            shelf,
            seed,
            stored: 0,
            replayed: 0,
            follows: true,
        }
    }

    /// Whether just so many captures of this load were stored on the shelf, and each was brought back as it was.
    pub fn is_filled(&self, seed: u64, count: u32) -> bool
        ensures { IsTrue result → IsTrue S.alone → IsFilled (S.told self.now.shelf) seed count count }
    {
        if self.seed != seed {
            return false;
        }
        if self.stored != count {
            return false;
        }
        if self.replayed != count {
            return false;
        }
        self.follows
    }

    /// Brings the next capture back, from the first one on, and says whether it is as it was.
    pub fn replay_next(&mut self, alloc: Global) -> bool {
        if self.replayed == u32::MAX {
            return false;
        }
        match self.shelf.bring(alloc, self.replayed) {
            Ok(brought) => {
                if is_brought(alloc, self.seed, self.replayed, &brought) {
                    self.replayed += 1;
                    return true;
                }
                false
            }
            Err(_) => false,
        }
    }

    /// The shelf again.
    pub fn into_shelf(self) -> S
        ensures { result ≡ self.shelf }
    {
        let LoadShelf { shelf, .. } = self;
        shelf
    }

    /// Whether a capture is the load's next one, behind all others.
    fn is_next(&self, alloc: Global, taken: &Taken) -> bool
        ensures follows { IsTrue result → self.now.follows ≡ true }
        ensures counted { IsTrue result → self.now.stored + 1 < 2 ^ 32 }
        ensures next { IsTrue result → taken.now ≡ taken_of self.now.seed self.now.stored }
    {
        if !self.follows {
            return false;
        }
        if self.stored == u32::MAX {
            return false;
        }
        match check_taken(alloc, self.seed, self.stored, taken) {
            Ok(()) => true,
            Err(_) => false,
        }
    }
}

/// Whether what was brought back is an exchange of the load.
fn is_brought(alloc: Global, seed: u64, number: u32, brought: &Brought) -> bool
    ensures { IsTrue result → brought.now ≡ brought_of seed number }
{
    match check_brought(alloc, seed, number, brought) {
        Ok(()) => true,
        Err(_) => false,
    }
}

impl<S: Shelf> Finder for LoadShelf<S> {
    ghost alone = { S.alone };

    ghost told = { λ s. S.told s.shelf };

    ghost earlier = { λ s. S.earlier s.shelf };

    ghost covered_later = { λ s. S.covered_later s.shelf };

    fn by_date(&mut self, alloc: Global, key: &Key, time: u64) -> Result<Option<Entry>, Memory> {
        self.shelf.by_date(alloc, key, time)
    }

    fn map(&mut self, alloc: Global, key: &Key) -> Result<Vec<Entry>, Memory> {
        self.shelf.map(alloc, key)
    }

    fn starting(&mut self, alloc: Global, start: &Key) -> Result<Vec<Entry>, Memory> {
        self.shelf.starting(alloc, start)
    }
}

impl<S: Shelf> Shelf for LoadShelf<S> {
    fn store(&mut self, alloc: Global, taken: &Taken) -> Result<Receipt, StoreFault> {
        let is_next = self.is_next(alloc, taken);
        match self.shelf.store(alloc, taken) {
            Ok(receipt) => {
                self.replayed = 0;
                if is_next {
                    self.stored += 1;
                    return Ok(receipt);
                }
                self.follows = false;
                Ok(receipt)
            }
            Err(fault) => {
                self.follows = false;
                Err(fault)
            }
        }
    }

    fn bring(&mut self, alloc: Global, number: u32) -> Result<Brought, BringFault> {
        self.shelf.bring(alloc, number)
    }

    fn piece(&mut self, alloc: Global, number: u32) -> Result<Bytes, BringFault> {
        self.shelf.piece(alloc, number)
    }

    fn catch_up(&mut self, alloc: Global) {
        self.shelf.catch_up(alloc)
    }
}
