//! Captures by date, in the list that readers see.
ghost use mathlib.Core.List.{IsPrefix};
ghost use Rattle.std.specs.Prelude.{◌≡◌, ◌<◌, ◌++◌, ◌∷◌, [], true, Contains, IfOk, MatchResult, OnOk};
ghost use Rattle.index_entry.specs.Queries.{IsIndex, of_key, starting_with};
ghost use Rattle.archive_shelf.specs.Queries.{IsFound};
ghost use Rattle.vault_lists.specs.Finding.{AreOfKey, AreStarting, HasSeen};
ghost use Rattle.vault_lists.specs.Items.{shown_in};

use crate::item::{Books, Item};
use crate::listed::Listed;
use capture::{Memory, growth_keeps_captures};
use cdxj_index::{Index, SharedEntry, Steps};
use core::mem::replace_with;
use index_entry::Entry;
use index_snapshot::{View, Viewer};
use std::alloc::Global;
use std::marker::Brand;
use std::sync::ledger::{Blank, Ledger};
use surt_key::Key;

/// The list as it is shown, if it begins with all that is known of it; else the viewer, which has seen it.
fn enter(
    viewer: Viewer<Item, Books>,
    listed: &Listed,
) -> Result<View<Item, Books>, Viewer<Item, Books>>
    requires { viewer.of ≡ listed.now.note.of }
    ensures of { MatchResult result (λ view. view.of ≡ viewer.of) (λ back. back.of ≡ viewer.of) }
    ensures more { MatchResult result (λ view. IsPrefix viewer.items view.items) (λ back. IsPrefix viewer.items back.items) }
    ensures knows { IfOk result (λ view. (listed.now.whole ≡ true) × IsPrefix listed.now.note.items view.items) }
{
    match viewer.enter() {
        Ok(view) => {
            if !listed.whole {
                return Err(view.leave());
            }
            if listed.note.begins(view.note()) {
                Ok(view)
            } else {
                Err(view.leave())
            }
        }
        Err(viewer) => Err(viewer),
    }
}

/// The entry of a key that is nearest to a time (RFC 7089, section 4.1.1), to be copied later.
fn nearest(index: &Index, key: &Key, time: u64) -> Result<Option<SharedEntry>, Memory>
    ensures found { IfOk result (λ entry. IsFound index.now key.now time entry) }
    ensures indexed { IsIndex index.now }
{
    index.len();
    nearest_by::<Brand>(index, key, time, Blank::new(1))
}

/// The same, with a ledger for the count of look-ups, which nobody reads.
fn nearest_by<L: Ledger>(
    index: &Index,
    key: &Key,
    time: u64,
    blank: Blank,
) -> Result<Option<SharedEntry>, Memory>
    requires name { blank.name ≡ L.name }
    requires parts { blank.parts ≡ L.parts }
    requires some { 0 < L.parts }
    requires indexed { IsIndex index.now }
    ensures { IfOk result (λ entry. IsFound index.now key.now time entry) }
{
    let mut steps = Steps::<L>::new(blank);
    match index.nearest(key, time, &mut steps) {
        Some(entry) => index.shared(entry.number),
        None => Ok(None),
    }
}

/// The entries of a key, in order of date and number, to be copied later.
fn with_key(alloc: Global, index: &Index, key: &Key) -> Result<Vec<SharedEntry>, Memory>
    ensures found { IfOk result (λ entries. entries.items ≡ of_key key.now index.now) }
    ensures indexed { IsIndex index.now }
{
    index.len();
    let mut entries = Vec::new(alloc);
    for entry in index.range(key) {
        take(index, entry, &mut entries)?;
    }
    Ok(entries)
}

/// The entries whose key begins with these bytes, in order of key, date and number, to be copied later.
fn starting(alloc: Global, index: &Index, start: &Key) -> Result<Vec<SharedEntry>, Memory>
    ensures found { IfOk result (λ entries. entries.items ≡ starting_with start.now index.now) }
    ensures indexed { IsIndex index.now }
{
    index.len();
    let mut entries = Vec::new(alloc);
    for entry in index.starting(start) {
        take(index, entry, &mut entries)?;
    }
    Ok(entries)
}

/// One entry more of the index.
fn take(index: &Index, entry: &Entry, entries: &mut Vec<SharedEntry>) -> Result<(), Memory>
    requires indexed { IsIndex index.now }
    requires there { Contains index.now entry.now }
    ensures { OnOk result (entries.new.items ≡ entries.old.items ++ entry.now ∷ []) }
{
    match index.shared(entry.number)? {
        Some(shared) => {
            entries.push(shared)?;
            Ok(())
        }
        None => unreachable!(),
    }
}

/// A copy of what was found.
fn copied(found: Option<SharedEntry>) -> Result<Option<Entry>, Memory>
    ensures { IfOk result (λ entry. entry ≡ found) }
{
    match found {
        Some(shared) => {
            let entry = shared.entry().copy()?;
            Ok(Some(entry))
        }
        None => Ok(None),
    }
}

/// A copy of each.
fn all_copied(alloc: Global, taken: &[SharedEntry]) -> Result<Vec<Entry>, Memory>
    ensures { IfOk result (λ entries. entries.items ≡ taken.now) }
{
    let mut entries = Vec::new(alloc);
    for shared in taken {
        entries.push(shared.entry().copy()?)?;
    }
    Ok(entries)
}

/// The entry of a key that is nearest to a time, of the list as it is shown. Within the view its handle alone is taken.
fn nearest_in(
    viewer: Viewer<Item, Books>,
    listed: &Listed,
    key: &Key,
    time: u64,
) -> (Viewer<Item, Books>, Result<Option<Entry>, Memory>)
    requires of { viewer.of ≡ listed.now.note.of }
    ensures of { result.0.of ≡ viewer.of }
    ensures more { IsPrefix viewer.items result.0.items }
    ensures found { IfOk result.1 (λ entry. IsFound (shown_in result.0.items) key.now time entry) }
    ensures seen { OnOk result.1 (HasSeen listed.now.note listed.now.whole result.0.items) }
{
    growth_keeps_captures();
    match enter(viewer, listed) {
        Ok(view) => match nearest(view.index(), key, time) {
            Ok(found) => (view.leave(), copied(found)),
            Err(Memory) => (view.leave(), Err(Memory)),
        },
        Err(viewer) => (viewer, Err(Memory)),
    }
}

/// The entries of a key, of the list as it is shown.
fn with_key_in(
    alloc: Global,
    viewer: Viewer<Item, Books>,
    listed: &Listed,
    key: &Key,
) -> (Viewer<Item, Books>, Result<Vec<Entry>, Memory>)
    requires of { viewer.of ≡ listed.now.note.of }
    ensures of { result.0.of ≡ viewer.of }
    ensures more { IsPrefix viewer.items result.0.items }
    ensures found { IfOk result.1 (λ entries. AreOfKey key.now result.0.items entries.items) }
    ensures seen { OnOk result.1 (HasSeen listed.now.note listed.now.whole result.0.items) }
{
    growth_keeps_captures();
    match enter(viewer, listed) {
        Ok(view) => match with_key(alloc, view.index(), key) {
            Ok(found) => (view.leave(), all_copied(alloc, found.as_slice())),
            Err(Memory) => (view.leave(), Err(Memory)),
        },
        Err(viewer) => (viewer, Err(Memory)),
    }
}

/// The entries whose key begins with these bytes, of the list as it is shown.
fn starting_in(
    alloc: Global,
    viewer: Viewer<Item, Books>,
    listed: &Listed,
    start: &Key,
) -> (Viewer<Item, Books>, Result<Vec<Entry>, Memory>)
    requires of { viewer.of ≡ listed.now.note.of }
    ensures of { result.0.of ≡ viewer.of }
    ensures more { IsPrefix viewer.items result.0.items }
    ensures found { IfOk result.1 (λ entries. AreStarting start.now result.0.items entries.items) }
    ensures seen { OnOk result.1 (HasSeen listed.now.note listed.now.whole result.0.items) }
{
    growth_keeps_captures();
    match enter(viewer, listed) {
        Ok(view) => match starting(alloc, view.index(), start) {
            Ok(found) => (view.leave(), all_copied(alloc, found.as_slice())),
            Err(Memory) => (view.leave(), Err(Memory)),
        },
        Err(viewer) => (viewer, Err(Memory)),
    }
}

/// The entry of a key that is nearest to a time (RFC 7089, section 4.1.1), of the list as it is shown. `Memory` too where that doesn't begin with all
/// that is known of it. Waits for nobody.
pub fn find_nearest(
    viewer: &mut Viewer<Item, Books>,
    listed: &Listed,
    key: &Key,
    time: u64,
) -> Result<Option<Entry>, Memory>
    requires of { viewer.old.of ≡ listed.now.note.of }
    ensures of { viewer.new.of ≡ viewer.old.of }
    ensures more { IsPrefix viewer.old.items viewer.new.items }
    ensures found { IfOk result (λ entry. IsFound (shown_in viewer.new.items) key.now time entry) }
    ensures seen { OnOk result (HasSeen listed.now.note listed.now.whole viewer.new.items) }
{
    replace_with(viewer, listed, |viewer, listed| {
        nearest_in(viewer, listed, key, time)
    })
}

/// The entries of a key, in order of date and number, likewise.
pub fn find_key(
    alloc: Global,
    viewer: &mut Viewer<Item, Books>,
    listed: &Listed,
    key: &Key,
) -> Result<Vec<Entry>, Memory>
    requires of { viewer.old.of ≡ listed.now.note.of }
    ensures of { viewer.new.of ≡ viewer.old.of }
    ensures more { IsPrefix viewer.old.items viewer.new.items }
    ensures found { IfOk result (λ entries. AreOfKey key.now viewer.new.items entries.items) }
    ensures seen { OnOk result (HasSeen listed.now.note listed.now.whole viewer.new.items) }
{
    replace_with(viewer, listed, |viewer, listed| {
        with_key_in(alloc, viewer, listed, key)
    })
}

/// The entries whose key begins with these bytes, in order of key, date and number, likewise.
pub fn find_starting(
    alloc: Global,
    viewer: &mut Viewer<Item, Books>,
    listed: &Listed,
    start: &Key,
) -> Result<Vec<Entry>, Memory>
    requires of { viewer.old.of ≡ listed.now.note.of }
    ensures of { viewer.new.of ≡ viewer.old.of }
    ensures more { IsPrefix viewer.old.items viewer.new.items }
    ensures found { IfOk result (λ entries. AreStarting start.now viewer.new.items entries.items) }
    ensures seen { OnOk result (HasSeen listed.now.note listed.now.whole viewer.new.items) }
{
    replace_with(viewer, listed, |viewer, listed| {
        starting_in(alloc, viewer, listed, start)
    })
}
