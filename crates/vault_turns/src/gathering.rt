//! What is taken of an archive for the list that is published.
ghost use Rattle.std.specs.Prelude.{◌≡◌, ◌<◌, suc, IfNone, IfOk, IfSome, OnOk, None, Contains, length};
ghost use Rattle.capture.specs.Captures.{captures};
ghost use Rattle.index_entry.specs.Facts.{Facts};
ghost use Rattle.archive_index.specs.Shown.{numbered};
ghost use Rattle.vault_lists.specs.Items.{book_in, brings_of};
ghost use Rattle.vault_turns.specs.Taking.{HasBelow, IsGathered, TakesItem};

use archive_core::Archive;
use capture::Memory;
use cdxj_index::{Index, SharedEntry};
use disk_model::Disk;
use index_snapshot::Place;
use shown::Shown;
use std::alloc::Global;
use std::snapshot::Snapshot;
use vault_lists::{Entries, Item};

/// Whether it is told what the book of the archive has, which clauses alone know.
pub(crate) fn tells<D: Disk>(archive: &Archive<D>) -> Shown<bool>
    ensures { result.value ≡ archive.now.told }
{
    Shown::told_by(archive)
}

/// The entry of the capture with this number, if there is one, and it is shown by date.
fn place_of<D: Disk>(alloc: Global, archive: &Archive<D>, number: u32) -> Result<Place, Memory>
    ensures below { IfOk result (λ place. IfSome place (λ entry. (entry.number ≡ number) × (number < length (captures archive.now.book)))) }
    ensures shown { IfOk result (λ place. IfSome place (λ entry. Contains (numbered archive.now.index) entry)) }
    ensures none { IfOk result (λ place. IfNone place (number < length (captures archive.now.book) → (entry : Facts) → Contains (numbered archive.now.index) entry → entry.number ≡ number → ⊥)) }
{
    if number >= archive.counts().captures {
        return Ok(None);
    }
    match archive.entry(number) {
        Some(entry) => shared(alloc, entry.copy()?),
        None => Ok(None),
    }
}

/// The entry for the copies that readers take.
fn shared(alloc: Global, entry: index_entry::Entry) -> Result<Place, Memory>
    ensures { IfOk result (λ place. IfSome place (λ e. e ≡ entry) × (place ≡ None → ⊥)) }
{
    let shared = SharedEntry::new(alloc, entry)?;
    Ok(Some(shared))
}

/// What is appended to the list: the archive's book, with the entry of the capture of this number, if there is one.
pub(crate) fn item_of<D: Disk>(
    alloc: Global,
    archive: &Archive<D>,
    number: u32,
) -> Result<(Item, Place), Memory>
    ensures { IfOk result (λ r. TakesItem archive.now.told archive.now number r.0 r.1) }
{
    let place = place_of(alloc, archive, number)?;
    archive.shows_its_book();
    let item = Item {
        told: tells(archive),
        held: Snapshot::of(archive.held()),
        entries: Entries::One(Snapshot::of(&place)),
    };
    Ok((item, place))
}

/// An index of all entries that the archive shows.
pub(crate) fn gathered<D: Disk>(alloc: Global, archive: &Archive<D>) -> Result<Index, Memory>
    ensures { IfOk result (λ index. IsGathered archive.now.told archive.now.book archive.now.index index) }
{
    let index = gathered_by_number(alloc, archive)?;
    archive.shows_its_book();
    index.len();
    Ok(index)
}

/// The same, of which each entry is known by its number.
fn gathered_by_number<D: Disk>(alloc: Global, archive: &Archive<D>) -> Result<Index, Memory>
    ensures { IfOk result (λ index. HasBelow (length (captures archive.now.book)) archive.now.index index) }
{
    let mut index = Index::new(alloc);
    let count = archive.counts().captures;
    for number in 0..count {
        put(alloc, archive, number, &mut index)?;
    }
    Ok(index)
}

/// Puts the entry of a number into an index, if there is one.
fn put<D: Disk>(
    alloc: Global,
    archive: &Archive<D>,
    number: u32,
    index: &mut Index,
) -> Result<(), Memory>
    requires { HasBelow number archive.now.index index.old }
    ensures { OnOk result (HasBelow (suc number) archive.now.index index.new) }
{
    match archive.entry(number) {
        Some(entry) => {
            let entry = entry.copy()?;
            index.add(alloc, entry)
        }
        None => Ok(()),
    }
}

/// The first item of the list, with the entries of this index.
pub(crate) fn first_item<D: Disk>(archive: &Archive<D>, index: &Index) -> Item
    requires { IsGathered archive.now.told archive.now.book archive.now.index index.now }
    ensures told { result.told.value ≡ archive.now.told }
    ensures book { book_in result ≡ archive.now.book }
    ensures entries { brings_of result ≡ index.now }
{
    Item {
        told: tells(archive),
        held: Snapshot::of(archive.held()),
        entries: Entries::Many(Snapshot::of(index)),
    }
}
