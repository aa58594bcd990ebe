//! The files of a folder in memory.
ghost use Rattle.std.specs.Prelude.{◌≡◌, ◌<◌, ◌++◌, ◌∷◌, [], None, length, set, get_or, IfOk, IfSome, OnOk, OnErr};
ghost use Rattle.memory_folder.specs.Entry.{found, IsPlace, no_entry, changed, with_step, entry_synced, all_listed, left_entries, with_left, reading};

use crate::budget::Budget;
use crate::entry::MemoryEntry;
use crate::step::Step;
use capture::Memory;
use std::alloc::Global;

/// Where the file of a name stands.
pub fn place_of(entries: &[MemoryEntry], name: &str) -> Option<usize>
    ensures inside { IfSome result (λ i. i < length entries.now) }
    ensures place { IfSome result (λ i. IsPlace entries.now name.now i) }
    ensures none { result ≡ None → found entries.now name.now ≡ None }
{
    for i in 0..entries.len() {
        if entries[i].is_named(name) {
            return Some(i);
        }
    }
    None
}

/// Keeps a step of a file. Where there is no such file, or memory was refused, nothing is changed.
pub fn keep_step(entries: &mut Vec<MemoryEntry>, name: &str, step: Step) -> Result<(), Memory>
    ensures ok { OnOk result (entries.new.items ≡ changed (with_step step) name.now entries.old.items) }
    ensures err { OnErr result (entries.new.items ≡ entries.old.items) }
{
    match place_of(entries.as_slice(), name) {
        Some(i) => push_at(entries, i, step),
        None => Err(Memory),
    }
}

/// A step more of the file at a place.
fn push_at(entries: &mut Vec<MemoryEntry>, i: usize, step: Step) -> Result<(), Memory>
    requires { i < length entries.old.items }
    ensures ok { OnOk result (entries.new.items ≡ set entries.old.items i (with_step step (get_or entries.old.items i no_entry))) }
    ensures err { OnErr result (entries.new.items ≡ entries.old.items) }
{
    entries[i].push(step)
}

/// The bytes of the file at a place, as reads find them.
pub fn bytes_at(alloc: Global, entries: &[MemoryEntry], i: usize) -> Result<Vec<u8>, Memory>
    requires { i < length entries.now }
    ensures { IfOk result (λ bytes. bytes.items ≡ reading (get_or entries.now i no_entry)) }
{
    entries[i].bytes(alloc, Budget::All)
}

/// A sync of a file was done, or failed.
pub fn sync_one(entries: &mut Vec<MemoryEntry>, name: &str, done: bool)
    ensures { entries.new.items ≡ changed (entry_synced done) name.now entries.old.items }
{
    if let Some(i) = place_of(entries.as_slice(), name) {
        sync_at(entries, i, done);
    }
}

/// A sync of the file at a place was done, or failed.
fn sync_at(entries: &mut Vec<MemoryEntry>, i: usize, done: bool)
    requires { i < length entries.old.items }
    ensures { entries.new.items ≡ set entries.old.items i (entry_synced done (get_or entries.old.items i no_entry)) }
{
    entries[i].set_synced(done);
}

/// A sync of the folder was done, or failed.
pub fn list_all(entries: &mut [MemoryEntry], done: bool)
    ensures { entries.new ≡ all_listed done entries.old }
{
    for entry in entries.iter_mut() {
        entry.set_listed(done);
    }
}

/// What a stop leaves of them.
pub fn left_of(
    alloc: Global,
    entries: &[MemoryEntry],
    budget: Budget,
) -> Result<Vec<MemoryEntry>, Memory>
    ensures { IfOk result (λ left. left.items ≡ left_entries budget entries.now) }
{
    let mut left = Vec::new(alloc);
    for entry in entries {
        leave(alloc, &mut left, entry, budget)?;
    }
    Ok(left)
}

/// What a stop leaves of one more.
fn leave(
    alloc: Global,
    left: &mut Vec<MemoryEntry>,
    entry: &MemoryEntry,
    budget: Budget,
) -> Result<(), Memory>
    ensures { OnOk result (left.new.items ≡ with_left budget entry.now left.old.items) }
{
    if !entry.is_left(budget) {
        return Ok(());
    }
    left.push(entry.left(alloc, budget)?)?;
    Ok(())
}
