//! The index: what an entry takes in memory, and what adding it and looking it up costs.
ghost use Rattle.std.specs.Prelude.{◌≡◌, ◌<◌, IfOk};
ghost use Rattle.index_entry.specs.Queries.{IsIndex, starting_with};

use capture::Memory;
use cdxj_index::{Index, Steps};
use index_entry::Entry;
use measuring::{Measured, NOON, Stopped, entry_of, resident, shuffled, url_of};
use std::alloc::Global;
use std::io::Print;
use std::marker::Brand;
use std::rt::{Clock, Files};
use std::sync::ledger::{Blank, Ledger};
use surt_key::{Key, KeyFault, key_of};

/// How many entries there are, each of a url of its own.
const ENTRIES: u32 = 1_000_000;

/// How many are looked up.
const LOOK_UPS: u32 = 100_000;

pub fn measure<R: Clock + Files + Print>(rt: &R, alloc: Global) -> Result<(), Stopped> {
    let before = resident(rt, alloc);
    let entries = entries_of(alloc)?;
    let start = Measured::start(rt)?;
    let index = index_of(alloc, entries)?;
    measure_index(rt, alloc, &index, &start, before)
}

/// Prints what it took to make the index from the start on, and the memory that is held more than before it, looks entries up in it, and
/// makes one in order.
fn measure_index<R: Clock + Files + Print>(
    rt: &R,
    alloc: Global,
    index: &Index,
    start: &Measured,
    before: u64,
) -> Result<(), Stopped> {
    let random = start.print(rt, "an entry added in no order", u64::from(ENTRIES))?;
    let bytes = resident(rt, alloc).saturating_sub(before);
    println!(rt; "memory of an entry: {} bytes", bytes / u64::from(ENTRIES))?;
    look_up(rt, alloc, index)?;
    let in_order = sorted(rt, alloc, index)?;
    println!(rt;
        "in no order: {}% of that",
        random
            .saturating_mul(100)
            .checked_div(in_order)
            .unwrap_or(0)
    )?;
    Ok(())
}

/// The nanoseconds that an entry takes of an index that is made of all in order.
fn sorted<R: Clock + Print>(rt: &R, alloc: Global, index: &Index) -> Result<u64, Stopped> {
    let list = copies(alloc, index)?;
    let start = Measured::start(rt)?;
    let sorted = Index::of_sorted(alloc, list)?;
    print_sorted(rt, &start, sorted)
}

/// Prints how long it took to make this index, and then lets it go.
fn print_sorted<R: Clock + Print>(rt: &R, start: &Measured, sorted: Index) -> Result<u64, Stopped> {
    start.print(rt, "an index of entries in order", sorted.len() as u64)
}

/// Entries in no order, neither of keys nor of numbers.
fn entries_of(alloc: Global) -> Result<Vec<Entry>, Memory> {
    let mut entries = Vec::with_capacity(alloc, ENTRIES as usize)?;
    for i in 0..ENTRIES {
        let number = shuffled(i, ENTRIES);
        entries.push(entry_of(alloc, shuffled(number, ENTRIES), number)?)?;
    }
    Ok(entries)
}

/// The index of the entries, of those with one number the first.
fn index_of(alloc: Global, entries: Vec<Entry>) -> Result<Index, Memory> {
    let mut index = Index::new(alloc);
    for entry in entries {
        if index.at(entry.number).is_none() {
            index.add(alloc, entry)?;
        }
    }
    Ok(index)
}

/// Looks keys up in the index.
fn look_up<R: Clock + Print>(rt: &R, alloc: Global, index: &Index) -> Result<u64, Stopped> {
    let keys = keys_of(alloc)?;
    look_up_keys(rt, index, keys.as_slice())
}

/// Keys of entries, in no order.
fn keys_of(alloc: Global) -> Result<Vec<Key>, Memory> {
    let mut keys = Vec::with_capacity(alloc, LOOK_UPS as usize)?;
    for i in 0..LOOK_UPS {
        let uri = url_of(alloc, shuffled(i, ENTRIES))?;
        if let Ok(key) = key_of(alloc, uri.as_bytes()) {
            keys.push(key)?;
        }
    }
    Ok(keys)
}

/// Looks these keys up.
fn look_up_keys<R: Clock + Print>(rt: &R, index: &Index, keys: &[Key]) -> Result<u64, Stopped> {
    let start = Measured::start(rt)?;
    let found = found_of::<Brand>(index, keys, Blank::new(1));
    start.print(rt, "nearest", found)
}

/// How many of the keys have an entry.
fn found_of<L: Ledger>(index: &Index, keys: &[Key], blank: Blank) -> u64
    requires name { blank.name ≡ L.name }
    requires parts { blank.parts ≡ L.parts }
    requires some { 0 < L.parts }
{
    let mut steps = Steps::<L>::new(blank);
    let mut found = 0u64;
    for key in keys {
        if index.nearest(key, NOON, &mut steps).is_some() {
            found = found.saturating_add(1);
        }
    }
    found
}

/// Copies of all entries, in order.
fn copies(alloc: Global, index: &Index) -> Result<Vec<Entry>, Memory>
    ensures { IfOk result (λ list. IsIndex list.items) }
{
    let room = index.len();
    let start = match key_of(alloc, b"http://a.test/") {
        Ok(key) => key.prefix(0)?,
        Err(KeyFault::NotHttp | KeyFault::Memory) => return Err(Memory),
    };
    let list = copies_from(alloc, index, &start, room)?;
    Ok(list)
}

/// Copies of the entries whose key begins so, in order.
fn copies_from(alloc: Global, index: &Index, start: &Key, room: usize) -> Result<Vec<Entry>, Memory>
    ensures { IfOk result (λ list. list.items ≡ starting_with start.now index.now) }
{
    let mut list = Vec::with_capacity(alloc, room)?;
    for entry in index.starting(start) {
        list.push(entry.copy()?)?;
    }
    Ok(list)
}
