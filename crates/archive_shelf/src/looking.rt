//! Looks at what a shelf shows, which let it catch up where they meet want of memory.
ghost use Rattle.std.specs.Prelude.{nat_eq, bytes_eq, IfOk, OnOk};
ghost use Rattle.std.specs.List.{starts_with};
ghost use Rattle.archive_shelf.specs.Queries.{ArePicked, IsFound};
ghost use Rattle.archive_shelf.specs.Told.{CatchesUp, KnowsBook};

use crate::Shelf;
use capture::Memory;
use index_entry::Entry;
use std::alloc::Global;
use surt_key::Key;

/// The entry of a key that is nearest to a time, as `by_date` finds it. Where that meets want of memory the shelf catches up, and is asked once more.
pub fn find_nearest<S: Shelf>(
    alloc: Global,
    shelf: &mut S,
    key: &Key,
    time: u64,
) -> Result<Option<Entry>, Memory>
    ensures found { IfOk result (λ entry. IsFound (S.told shelf.new).contents.shown key.now time entry) }
    ensures knows { OnOk result (KnowsBook S.alone (S.told shelf.new).contents) }
    ensures looks { CatchesUp S.alone (S.told shelf.old) (S.told shelf.new) }
{
    match shelf.by_date(alloc, key, time) {
        Ok(found) => Ok(found),
        Err(Memory) => {
            shelf.catch_up(alloc);
            shelf.by_date(alloc, key, time)
        }
    }
}

/// The entries of a key, as `map` finds them. Where that meets want of memory the shelf catches up, and is asked once more.
pub fn find_all<S: Shelf>(alloc: Global, shelf: &mut S, key: &Key) -> Result<Vec<Entry>, Memory>
    ensures found { IfOk result (λ entries. ArePicked (λ e. bytes_eq key.now e.key) (S.told shelf.new).contents.shown entries.items) }
    ensures knows { OnOk result (KnowsBook S.alone (S.told shelf.new).contents) }
    ensures looks { CatchesUp S.alone (S.told shelf.old) (S.told shelf.new) }
{
    match shelf.map(alloc, key) {
        Ok(entries) => Ok(entries),
        Err(Memory) => {
            shelf.catch_up(alloc);
            shelf.map(alloc, key)
        }
    }
}

/// The entries whose key begins with these bytes, as `starting` finds them. Where that meets want of memory the shelf catches up, and is asked once more.
pub fn find_starting<S: Shelf>(
    alloc: Global,
    shelf: &mut S,
    start: &Key,
) -> Result<Vec<Entry>, Memory>
    ensures found { IfOk result (λ entries. ArePicked (λ e. starts_with nat_eq e.key start.now) (S.told shelf.new).contents.shown entries.items) }
    ensures knows { OnOk result (KnowsBook S.alone (S.told shelf.new).contents) }
    ensures looks { CatchesUp S.alone (S.told shelf.old) (S.told shelf.new) }
{
    match shelf.starting(alloc, start) {
        Ok(entries) => Ok(entries),
        Err(Memory) => {
            shelf.catch_up(alloc);
            shelf.starting(alloc, start)
        }
    }
}
