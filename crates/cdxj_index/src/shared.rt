//! An entry that stands once, for the maps that hold it.
ghost use Rattle.std.specs.Prelude.{◌≡◌, ◌<◌, Some, length, slice_get, IfOk};
ghost use Rattle.std.specs.Arc.{arc_value};
ghost use Rattle.cdxj_index.specs.Sharing.{entry_of};

use capture::Memory;
use index_entry::Entry;
use std::alloc::Global;
use std::marker::Model;
use std::sync::Arc;

/// An entry, of which another one may be had.
#[derive(Drop)]
pub(crate) struct Shared {
    kept: Kept,
}

/// Where an entry stands: by itself, or among those that came together.
#[derive(Drop)]
pub(crate) enum Kept {
    Alone(Arc<Entry>),
    Among(Arc<Placed>),
}

/// The entry at a place among others. A clause sees that entry.
#[derive(Drop)]
pub(crate) struct Placed {
    entries: Arc<Vec<Entry>>,
    place: u32,
}

impl Model for Placed {
    ghost use Rattle.std.specs.Arc.{arc_value};
    ghost use Rattle.std.specs.Prelude.{◌<◌, length, slice_index_or};
    ghost use Rattle.index_entry.specs.Facts.{Facts, past_end};

    ghost Value = { Facts };

    ghost view = { λ placed. slice_index_or (arc_value placed.entries).items placed.place past_end };

    ghost invariant = { λ placed. placed.place < length (arc_value placed.entries).items };
}

impl Placed {
    /// The entry at the place.
    fn entry(&self) -> &Entry
        ensures { result.now ≡ self.now }
    {
        let entries: &Vec<Entry> = &self.entries;
        &entries[self.place as usize]
    }
}

impl Shared {
    /// An entry in memory of its own.
    pub fn alone(alloc: Global, entry: Entry) -> Result<Shared, Memory>
        ensures { IfOk result (λ shared. entry_of shared ≡ entry) }
    {
        let entry = Arc::new(alloc, entry)?;
        Ok(Shared {
            kept: Kept::Alone(entry),
        })
    }

    /// The entry at a place among others. Their memory is kept as long as one of them is.
    pub fn among(alloc: Global, entries: &Arc<Vec<Entry>>, place: u32) -> Result<Shared, Memory>
        requires { place < length (arc_value entries.now).items }
        ensures { IfOk result (λ shared. slice_get (arc_value entries.now).items place ≡ Some (entry_of shared)) }
    {
        let entries = Arc::try_clone(entries)?;
        let placed = Arc::new(alloc, Placed { entries, place })?;
        Ok(Shared {
            kept: Kept::Among(placed),
        })
    }

    /// The same entry for another map.
    pub fn share(&self) -> Result<Shared, Memory>
        ensures { IfOk result (λ shared. entry_of shared ≡ entry_of self.now) }
    {
        match &self.kept {
            Kept::Alone(entry) => {
                let entry = Arc::try_clone(entry)?;
                Ok(Shared {
                    kept: Kept::Alone(entry),
                })
            }
            Kept::Among(placed) => {
                let placed = Arc::try_clone(placed)?;
                Ok(Shared {
                    kept: Kept::Among(placed),
                })
            }
        }
    }

    /// The entry.
    pub fn facts(&self) -> &Entry
        ensures { result.now ≡ entry_of self.now }
    {
        match &self.kept {
            Kept::Alone(entry) => entry,
            Kept::Among(placed) => placed.entry(),
        }
    }
}
