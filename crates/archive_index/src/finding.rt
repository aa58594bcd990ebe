//! Captures by date.
ghost use Rattle.std.specs.Prelude.{◌≡◌, ◌<◌, ◌++◌, ◌∷◌, [], bytes_eq, nat_eq, IfOk, OnOk};
ghost use Rattle.std.specs.List.{starts_with};
ghost use Rattle.index_entry.specs.Queries.{IsIndex};
ghost use Rattle.archive_shelf.specs.Queries.{ArePicked, IsFound};
ghost use Rattle.archive_index.specs.Shown.{numbered};

use capture::Memory;
use cdxj_index::{Index, Steps};
use index_entry::Entry;
use std::alloc::Global;
use std::marker::Brand;
use std::sync::ledger::{Blank, Ledger};
use surt_key::Key;

/// A copy of the entry of a key that is nearest to a time (RFC 7089, section 4.1.1).
pub fn nearest(index: &Index, key: &Key, time: u64) -> Result<Option<Entry>, Memory>
    ensures { IfOk result (λ entry. IsFound (numbered index.now) key.now time entry) }
{
    nearest_by::<Brand>(index, key, time, Blank::new(1))
}

/// The same, with a ledger for the count of look-ups, which nobody reads.
fn nearest_by<L: Ledger>(
    index: &Index,
    key: &Key,
    time: u64,
    blank: Blank,
) -> Result<Option<Entry>, Memory>
    requires name { blank.name ≡ L.name }
    requires parts { blank.parts ≡ L.parts }
    requires some { 0 < L.parts }
    ensures { IfOk result (λ entry. IsFound (numbered index.now) key.now time entry) }
{
    let mut steps = Steps::<L>::new(blank);
    match index.nearest(key, time, &mut steps) {
        Some(entry) => Ok(Some(entry.copy()?)),
        None => Ok(None),
    }
}

/// Copies of the entries of a key, in order of date and number.
pub fn with_key(alloc: Global, index: &Index, key: &Key) -> Result<Vec<Entry>, Memory>
    requires { IsIndex index.now }
    ensures { IfOk result (λ entries. ArePicked (λ e. bytes_eq key.now e.key) (numbered index.now) entries.items) }
{
    let mut entries = Vec::new(alloc);
    for entry in index.range(key) {
        push_copy(&mut entries, entry)?;
    }
    Ok(entries)
}

/// Copies of the entries whose key begins with these bytes, in order of key, date and number.
pub fn starting(alloc: Global, index: &Index, start: &Key) -> Result<Vec<Entry>, Memory>
    requires { IsIndex index.now }
    ensures { IfOk result (λ entries. ArePicked (λ e. starts_with nat_eq e.key start.now) (numbered index.now) entries.items) }
{
    let mut entries = Vec::new(alloc);
    for entry in index.starting(start) {
        push_copy(&mut entries, entry)?;
    }
    Ok(entries)
}

/// Puts a copy of an entry behind the others.
fn push_copy(entries: &mut Vec<Entry>, entry: &Entry) -> Result<(), Memory>
    ensures { OnOk result (entries.new.items ≡ entries.old.items ++ entry.now ∷ []) }
{
    entries.push(entry.copy()?)?;
    Ok(())
}
