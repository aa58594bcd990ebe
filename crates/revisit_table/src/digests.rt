//! The table of digests.
ghost use Rattle.std.specs.Prelude.{◌≡◌, ℕ, ◌<◌, ◌≤◌, true, [], not, ◌==◌, nat_le, Some, map, filter, All, IfOk, IfSome, IfNone, remove, length, OnOk, OnErr};
ghost use Rattle.std.specs.List.Sorted.{IsStrictlyIncreasing};
ghost use Rattle.revisit_table.specs.Table.{empty_table, numbers_of, table_of, with_room, with_added, with_taken_back, without};

use crate::groups::lists_of;
use crate::lists::{add_at, drop_unused, put_at, reserve_at, take_at};
use crate::numbers::Numbers;
use capture::{Digest, Memory};
use std::alloc::Global;
use std::collections::BTreeMap;
use std::marker::Model;

/// Which captures have which digest. A clause sees the list of what was added and not taken back,
/// each digest with a capture's number, and the digest for which room is reserved.
///
/// The numbers of that list rise strictly. Only `of`, `reserve` and `put` take memory.
#[derive(Drop)]
pub struct Digests {
    kept: Vec<(Digest, u32)>,
    lists: BTreeMap<Digest, Numbers>,
    reserved: Option<Digest>,
}

impl Model for Digests {
    ghost use Rattle.revisit_table.specs.Lists.{AreListsOf};
    ghost use Rattle.revisit_table.specs.Table.{Table};

    ghost Value = { Table };

    ghost view = { λ table. record { kept = table.kept.items; reserved = table.reserved } };

    ghost invariant = { λ table. AreListsOf table.kept table.lists table.reserved };
}

impl Digests {
    /// No digests. Takes no memory.
    pub fn new(alloc: Global) -> Digests
        ensures { result ≡ empty_table }
    {
        Digests {
            kept: Vec::new(alloc),
            lists: BTreeMap::new(alloc),
            reserved: None,
        }
    }

    /// The table of these captures, which are in order of their numbers: they are sorted by digest, and the map is made of them at once.
    pub fn of(alloc: Global, kept: Vec<(Digest, u32)>) -> Result<Digests, Memory>
        requires rising { IsStrictlyIncreasing (map (λ entry. entry.1) kept.items) }
        ensures { IfOk result (λ table. table ≡ table_of kept.items) }
    {
        let lists = lists_of(alloc, kept.as_slice())?;
        Ok(Digests {
            kept,
            lists,
            reserved: None,
        })
    }

    /// Whether there is no capture.
    pub(crate) fn is_empty(&self) -> bool
        ensures { result ≡ true → self.now.kept ≡ [] }
    {
        self.kept.is_empty()
    }

    /// The numbers of the captures that have this digest, which rise strictly.
    ///
    /// One look-up in an ordered map. It takes no memory.
    pub fn candidates(&self, digest: &Digest) -> &[u32]
        ensures numbers { result.now ≡ numbers_of digest.now self.now.kept }
        ensures rising { IsStrictlyIncreasing result.now }
    {
        match self.lists.get(digest) {
            Some(numbers) => numbers.as_slice(),
            None => &[],
        }
    }

    /// Those of the candidates that are at least `least`, which rise strictly.
    ///
    /// One look-up in an ordered map and a binary search. It takes no memory.
    pub fn candidates_from(&self, digest: &Digest, least: u32) -> &[u32]
        ensures numbers { result.now ≡ filter (λ number. nat_le least number) (numbers_of digest.now self.now.kept) }
        ensures rising { IsStrictlyIncreasing result.now }
    {
        let numbers = self.candidates(digest);
        from_least(numbers, least)
    }

    /// Makes room for one more capture of this digest, in the place of room that was reserved before.
    /// Of a digest for which room was reserved and no capture added, nothing is kept then.
    ///
    /// After `Memory` the table is as it was.
    pub fn reserve(&mut self, alloc: Global, digest: &Digest) -> Result<(), Memory>
        ensures ok { OnOk result (self.new ≡ with_room self.old digest.now) }
        ensures err { OnErr result (self.new ≡ self.old) }
    {
        self.kept.reserve(1)?;
        reserve_at(&mut self.lists, alloc, digest)?;
        if let Some(before) = self.reserved.replace(*digest) {
            drop_unused(&mut self.lists, &before, self.reserved);
        }
        Ok(())
    }

    /// Adds a capture of this digest, in the room that was reserved for it. Takes no memory.
    pub fn add(&mut self, digest: &Digest, number: u32)
        requires reserved { self.old.reserved ≡ Some digest.now }
        requires above { All (λ entry. entry.1 < number) self.old.kept }
        ensures { self.new ≡ with_added self.old digest.now number }
    {
        self.kept.push_reserved((*digest, number));
        add_at(&mut self.lists, digest, number);
        self.reserved = None;
    }

    /// Adds a capture of this digest as `reserve` and `add` do, by one look-up. After `Memory` the table is as it was.
    pub fn put(&mut self, alloc: Global, digest: &Digest, number: u32) -> Result<(), Memory>
        requires above { All (λ entry. entry.1 < number) self.old.kept }
        ensures ok { OnOk result (self.new ≡ with_added self.old digest.now number) }
        ensures err { OnErr result (self.new ≡ self.old) }
    {
        self.kept.reserve(1)?;
        put_at(&mut self.lists, alloc, digest, number)?;
        self.kept.push_reserved((*digest, number));
        if let Some(before) = self.reserved.take() {
            drop_unused(&mut self.lists, &before, None);
        }
        Ok(())
    }

    /// Takes the capture of this number back. One that isn't there changes nothing.
    ///
    /// Room that is reserved stays reserved. Takes no memory.
    pub fn take_back(&mut self, number: u32)
        ensures { self.new ≡ with_taken_back self.old number }
    {
        if let Some(place) = place_of(self.kept.as_slice(), number) {
            let (digest, _) = self.kept.remove(place);
            take_at(&mut self.lists, &digest, number);
            drop_unused(&mut self.lists, &digest, self.reserved);
        }
    }
}

/// The numbers that are at least `least`, of numbers that rise.
fn from_least(numbers: &[u32], least: u32) -> &[u32]
    requires { IsStrictlyIncreasing numbers.now }
    ensures numbers { result.now ≡ filter (λ number. nat_le least number) numbers.now }
    ensures rising { IsStrictlyIncreasing result.now }
{
    let start = numbers.partition_point(|number| *number < least);
    &numbers[start..]
}

/// The place of the entry with this number, if it's there.
fn place_of(kept: &[(Digest, u32)], number: u32) -> Option<usize>
    requires { IsStrictlyIncreasing (map (λ entry. entry.1) kept.now) }
    ensures within { IfSome result (λ place. place < length kept.now) }
    ensures found { IfSome result (λ place. without number kept.now ≡ remove kept.now place) }
    ensures absent { IfNone result (without number kept.now ≡ kept.now) }
{
    kept.binary_search_by_key(&number, |entry| entry.1).ok()
}
