//! The index.
ghost use Rattle.std.specs.Prelude.{◌≡◌, ◌↔◌, ◌+◌, ◌≤◌, [], ◌∷◌, ◌++◌, length, Contains, None, IsTrue, IfOk, OnOk, OnErr, IfSome, IfNone, option_copied};
ghost use Rattle.std.specs.declared.cmp.Ordering.TheVariants.{Less};
ghost use Rattle.index_entry.specs.Facts.{Facts};
ghost use Rattle.cdxj_index.specs.Groups.{AreGroups};
ghost use Rattle.cdxj_index.specs.Maps.{by_numbers, entry_of, shown_all, values_shown};
ghost use Rattle.index_entry.specs.Order.{order, with_entry, without};
ghost use Rattle.index_entry.specs.Queries.{HasNone, IsIndex, IsNearest, of_key, starting_with, with_number};

use crate::entry_map::{EntryMap, Group, append, first_after, first_from, last_until};
use crate::settle::{Numbered, settle};
use crate::shared::Shared;
use crate::{Range, SharedEntry, Starting, Steps};
use capture::Memory;
use index_entry::{Entry, number_of};
use std::alloc::Global;
use std::collections::BTreeMap;
use std::marker::Model;
use std::sync::Arc;
use std::sync::ledger::Ledger;
use surt_key::Key;

/// The index of an archive: its entries in order of key, date and number. A clause sees the list of them.
///
/// No two entries have one number.
#[derive(Drop)]
pub struct Index {
    map: EntryMap,
    numbers: BTreeMap<u32, Shared>,
}

impl Model for Index {
    ghost use Rattle.std.specs.Prelude.{List};
    ghost use Rattle.index_entry.specs.Facts.{Facts};
    ghost use Rattle.cdxj_index.specs.Maps.{AreMaps, entries_of};

    ghost Value = { List Facts };

    ghost view = { λ index. entries_of index.map.keys };

    ghost invariant = { λ index. AreMaps index.map.keys index.numbers };
}

/// Puts an entry that comes after all others behind them, and under its number.
fn put_last(
    alloc: Global,
    entry: Shared,
    numbers: &mut Vec<Numbered>,
    groups: &mut Vec<Group>,
) -> Result<(), Memory>
    requires groups { AreGroups groups.old.items }
    requires last { (other : Facts) → Contains (shown_all groups.old.items) other → order other (entry_of entry) ≡ Less }
    requires numbers { values_shown numbers.old.items ≡ by_numbers (shown_all groups.old.items) }
    ensures groups { OnOk result (AreGroups groups.new.items) }
    ensures shown { OnOk result (shown_all groups.new.items ≡ shown_all groups.old.items ++ entry_of entry ∷ []) }
    ensures numbers { OnOk result (values_shown numbers.new.items ≡ by_numbers (shown_all groups.new.items)) }
{
    let facts = entry.facts();
    numbers.push((facts.number, entry.share()?))?;
    append(alloc, groups, entry)
}

impl Index {
    /// No entries. Takes no memory.
    pub fn new(alloc: Global) -> Index
        ensures { result ≡ [] }
    {
        Index {
            map: EntryMap::new(alloc),
            numbers: BTreeMap::new(alloc),
        }
    }

    /// The index of entries that are in order, as adding them one by one gives it.
    pub fn of_sorted(alloc: Global, entries: Vec<Entry>) -> Result<Index, Memory>
        requires { IsIndex entries.items }
        ensures { IfOk result (λ index. index ≡ entries.items) }
    {
        // Fails only for a list that leaves no number out, which would take 512 GiB.
        let Ok(count) = u32::try_from(entries.len()) else {
            return Err(Memory);
        };
        let mut numbers = Vec::with_capacity(alloc, entries.len())?;
        let mut groups = Vec::with_capacity(alloc, entries.len())?;
        let all = Arc::new(alloc, entries)?;
        for place in 0..count {
            let entry = Shared::among(alloc, &all, place)?;
            put_last(alloc, entry, &mut numbers, &mut groups)?;
        }
        Index::of_parts(alloc, numbers, groups)
    }

    /// The index of the entries in these groups, which stand under their numbers too.
    fn of_parts(
        alloc: Global,
        mut numbers: Vec<Numbered>,
        groups: Vec<Group>,
    ) -> Result<Index, Memory>
        requires index { IsIndex (shown_all groups.items) }
        requires groups { AreGroups groups.items }
        requires numbers { values_shown numbers.items ≡ by_numbers (shown_all groups.items) }
        ensures { IfOk result (λ index. index ≡ shown_all groups.items) }
    {
        settle(alloc, &mut numbers);
        Ok(Index {
            map: EntryMap::of_groups(alloc, groups)?,
            numbers: BTreeMap::from_iter(alloc, numbers)?,
        })
    }

    /// The same entries in maps of their own, in the time of `of_sorted`. The entries themselves are shared.
    pub fn again(&self, alloc: Global) -> Result<Index, Memory>
        ensures { IfOk result (λ index. index ≡ self.now) }
    {
        let mut numbers = Vec::with_capacity(alloc, self.numbers.len())?;
        let mut groups = Vec::new(alloc);
        for entry in self.map.all() {
            let Some(shared) = self.numbers.get(&entry.number) else {
                unreachable!()
            };
            put_last(alloc, shared.share()?, &mut numbers, &mut groups)?;
        }
        Index::of_parts(alloc, numbers, groups)
    }

    /// Puts an entry in its place. After `Memory` the index is as it was.
    pub fn add(&mut self, alloc: Global, entry: Entry) -> Result<(), Memory>
        requires { with_number entry.number self.old ≡ None }
        ensures ok { OnOk result (self.new ≡ with_entry entry self.old) }
        ensures err { OnErr result (self.new ≡ self.old) }
    {
        let entry = SharedEntry::new(alloc, entry)?;
        self.add_shared(alloc, entry)
    }

    /// Puts an entry that others may hold too in its place. After `Memory` the index is as it was.
    pub fn add_shared(&mut self, alloc: Global, entry: SharedEntry) -> Result<(), Memory>
        requires { with_number entry.number self.old ≡ None }
        ensures ok { OnOk result (self.new ≡ with_entry entry self.old) }
        ensures err { OnErr result (self.new ≡ self.old) }
    {
        let entry = entry.into_shared();
        let number = number_of(entry.facts());
        let shared = entry.share()?;
        self.numbers.insert(number, shared)?;
        if self.map.insert(alloc, entry).is_err() {
            self.numbers.remove(&number);
            return Err(Memory);
        }
        Ok(())
    }

    /// Takes the entry of this number back. Where there is none, nothing changes. Takes no memory.
    pub fn take_back(&mut self, number: u32)
        ensures { self.new ≡ without number self.old }
    {
        if let Some(taken) = self.numbers.remove(&number) {
            let entry = taken.facts();
            self.map.remove(&entry.key, entry.moment());
            // As a call, so that what is known of the index is not split by where the entry stood.
            drop(taken);
        }
    }

    /// The entry of a number. Takes no memory.
    pub fn at(&self, number: u32) -> Option<&Entry>
        ensures { option_copied result ≡ with_number number self.now }
    {
        let entry = self.numbers.get(&number)?;
        Some(entry.facts())
    }

    /// The entry of a number, to be held elsewhere too. Takes no memory.
    pub fn shared(&self, number: u32) -> Result<Option<SharedEntry>, Memory>
        ensures { IfOk result (λ shared. shared ≡ with_number number self.now) }
    {
        match self.numbers.get(&number) {
            Some(shared) => {
                let shared = SharedEntry::of(shared)?;
                Ok(Some(shared))
            }
            None => Ok(None),
        }
    }

    /// How many entries there are.
    pub fn len(&self) -> usize
        ensures len { result ≡ length self.now }
        ensures index { IsIndex self.now }
    {
        self.numbers.len()
    }

    /// Whether there are no entries.
    pub fn is_empty(&self) -> bool
        ensures { IsTrue result ↔ (self.now ≡ []) }
    {
        self.numbers.is_empty()
    }

    /// The entry of a key that is nearest to a time, the first in order among equals (RFC 7089, section 4.1.1).
    ///
    /// It makes four look-ups at most and takes no memory.
    pub fn nearest<L: Ledger>(&self, key: &Key, time: u64, steps: &mut Steps<L>) -> Option<&Entry>
        ensures some { IfSome result (λ entry. IsNearest self.now key.now time entry.now) }
        ensures none { IfNone result (HasNone self.now key.now) }
        ensures cost { steps.new ≤ steps.old + 4 }
    {
        let captures = self.map.of_key(key, steps)?;
        let before = last_until(captures, time, steps);
        let after = first_after(captures, time, steps);
        match (before, after) {
            (Some(before), Some(after)) => {
                if after.date - time < time - before.date {
                    Some(after)
                } else {
                    first_from(captures, before.date, steps)
                }
            }
            (Some(before), None) => first_from(captures, before.date, steps),
            (None, after) => after,
        }
    }

    /// The entries of a key, in order. Takes no memory, and counts no look-up.
    pub fn range(&self, key: &Key) -> Range<'_>
        ensures { result ≡ of_key key.now self.now }
    {
        self.map.range(key)
    }

    /// The entries whose key begins with these bytes, in order. Takes no memory, and counts no look-up.
    pub fn starting(&self, start: &Key) -> Starting<'_>
        ensures { result ≡ starting_with start.now self.now }
    {
        self.map.starting(start)
    }
}
