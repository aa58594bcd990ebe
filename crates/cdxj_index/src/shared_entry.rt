//! An entry that several indexes may hold.
ghost use Rattle.std.specs.Prelude.{◌≡◌, IfOk};
ghost use Rattle.cdxj_index.specs.Sharing.{entry_of};

use crate::shared::Shared;
use capture::Memory;
use index_entry::Entry;
use std::alloc::Global;
use std::marker::Model;

/// An entry that stands in memory once, however many indexes and lists hold it. A clause sees the entry.
#[derive(Drop)]
pub struct SharedEntry {
    shared: Shared,
}

impl Model for SharedEntry {
    ghost use Rattle.index_entry.specs.Facts.{Facts};
    ghost use Rattle.cdxj_index.specs.Sharing.{entry_of};

    ghost Value = { Facts };

    ghost view = { λ s. entry_of s.shared };
}

impl SharedEntry {
    /// An entry that can be shared.
    pub fn new(alloc: Global, entry: Entry) -> Result<SharedEntry, Memory>
        ensures { IfOk result (λ shared. shared ≡ entry) }
    {
        Ok(SharedEntry {
            shared: Shared::alone(alloc, entry)?,
        })
    }

    /// The entry that an index holds.
    pub(crate) fn of(shared: &Shared) -> Result<SharedEntry, Memory>
        ensures { IfOk result (λ entry. entry ≡ entry_of shared.now) }
    {
        Ok(SharedEntry {
            shared: shared.share()?,
        })
    }

    /// The same entry for another holder. Takes no memory.
    pub fn share(&self) -> Result<SharedEntry, Memory>
        ensures { IfOk result (λ shared. shared ≡ self.now) }
    {
        Ok(SharedEntry {
            shared: self.shared.share()?,
        })
    }

    /// The entry.
    pub fn entry(&self) -> &Entry
        ensures { result.now ≡ self.now }
    {
        self.shared.facts()
    }

    /// The entry for the maps of an index.
    pub(crate) fn into_shared(self) -> Shared
        ensures { entry_of result ≡ self }
    {
        self.shared
    }
}
