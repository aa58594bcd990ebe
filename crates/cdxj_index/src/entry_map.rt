//! The ordered map behind an index: entries by key, and under each key by date and number.
ghost use Rattle.std.specs.Prelude.{◌≡◌, ◌+◌, [], IfNone, IfOk, IfSome, OnOk, OnErr, option_copied};
ghost use Rattle.std.specs.BTreeMap.{IsFromIterResult, get};
ghost use Rattle.std.specs.Cmp.Lexicographic.{slice_cmp};
ghost use Rattle.std.specs.Ordering.{nat_cmp};
ghost use Rattle.cdxj_index.specs.Maps.{AreKeys, HasNoneAfter, HasNoneFrom, HasNoneUntil, IsFirstAfter, IsFirstFrom, IsLastUntil, Puts, SameKeys, Takes, entries_of, entry_of};
ghost use Rattle.index_entry.specs.Queries.{of_key, starting_with};

mod captures;
mod groups;
mod iterators;
mod many;
mod only;

use crate::Steps;
use crate::shared::Shared;
use capture::Memory;
use captures::Captures;
pub(crate) use groups::{Group, append};
use index_entry::{Entry, Moment};
pub use iterators::{Range, Starting};
use many::{first_of, last_of, next_of};
use only::{only_after, only_from, only_until};
use std::alloc::Global;
use std::collections::BTreeMap;
use std::sync::ledger::Ledger;
use surt_key::Key;

/// Entries by key, and under each key by date and number, so that no look-up copies a key.
///
/// Nobody else names its maps: who looks an entry up does it by a call that takes `steps`, and counts one. Only `range` and
/// `starting`, which hand out iterators, count nothing.
#[derive(Drop)]
pub(crate) struct EntryMap {
    keys: BTreeMap<Key, Captures>,
}

impl EntryMap {
    /// No entries. Takes no memory.
    pub fn new(alloc: Global) -> EntryMap
        ensures { result.keys.entries ≡ [] }
    {
        EntryMap {
            keys: BTreeMap::new(alloc),
        }
    }

    /// The entries of these groups, which are in the order of their keys.
    pub fn of_groups(alloc: Global, groups: Vec<Group>) -> Result<EntryMap, Memory>
        ensures { IfOk result (λ map. IsFromIterResult (slice_cmp nat_cmp) groups.items map.keys) }
    {
        Ok(EntryMap {
            keys: BTreeMap::from_iter(alloc, groups)?,
        })
    }

    /// The entries of a key, in order. Counts no look-up.
    pub fn range(&self, key: &Key) -> Range<'_>
        requires { AreKeys self.now.keys }
        ensures { result ≡ of_key key.now (entries_of self.now.keys) }
    {
        match self.keys.get(key) {
            Some(captures) => Range::of(captures),
            None => Range::none(),
        }
    }

    /// The entries whose key begins with these bytes, in order. Counts no look-up.
    pub fn starting(&self, start: &Key) -> Starting<'_>
        requires { AreKeys self.now.keys }
        ensures { result ≡ starting_with start.now (entries_of self.now.keys) }
    {
        Starting::of(&self.keys, start)
    }

    /// All entries, in order. Counts no look-up.
    pub fn all(&self) -> Starting<'_>
        ensures { result ≡ entries_of self.now.keys }
    {
        Starting::all(&self.keys)
    }

    /// The captures of a key.
    pub fn of_key<L: Ledger>(&self, key: &Key, steps: &mut Steps<L>) -> Option<&Captures>
        ensures found { option_copied result ≡ get (slice_cmp nat_cmp) self.now.keys key.now }
        ensures step { steps.new ≡ steps.old + 1 }
    {
        steps.tick();
        self.keys.get(key)
    }

    /// Puts an entry in its place. After `Memory` the entries are as they were.
    pub fn insert(&mut self, alloc: Global, entry: Shared) -> Result<(), Memory>
        requires { AreKeys self.old.keys }
        ensures keys { AreKeys self.new.keys }
        ensures ok { OnOk result (Puts self.old.keys self.new.keys (entry_of entry)) }
        ensures err { OnErr result (SameKeys self.old.keys self.new.keys) }
    {
        let facts = entry.facts();
        let moment = facts.moment();
        if let Some(captures) = self.keys.get_mut(&facts.key) {
            captures.insert(alloc, moment, entry)?;
            return Ok(());
        }
        let key = facts.key.copy()?;
        self.keys.insert(key, Captures::One(entry))?;
        Ok(())
    }

    /// Takes the entry of a key, date and number out, and the key with its last entry.
    pub fn remove(&mut self, key: &Key, moment: Moment)
        requires { AreKeys self.old.keys }
        ensures keys { AreKeys self.new.keys }
        ensures taken { Takes self.old.keys self.new.keys key.now moment }
    {
        let Some(captures) = self.keys.get_mut(key) else {
            return;
        };
        if captures.remove(moment) {
            self.keys.remove(key);
        }
    }
}

/// The last capture up to the time.
pub(crate) fn last_until<'a, L: Ledger>(
    captures: &'a Captures,
    time: u64,
    steps: &mut Steps<L>,
) -> Option<&'a Entry>
    ensures none { IfNone result (HasNoneUntil captures.now time) }
    ensures some { IfSome result (λ entry. IsLastUntil captures.now time entry.now) }
    ensures step { steps.new ≡ steps.old + 1 }
{
    steps.tick();
    match captures {
        Captures::One(entry) => only_until(entry, time),
        Captures::Many(places) => last_of(places, time),
    }
}

/// The first capture of the date or a later one.
pub(crate) fn first_from<'a, L: Ledger>(
    captures: &'a Captures,
    date: u64,
    steps: &mut Steps<L>,
) -> Option<&'a Entry>
    ensures none { IfNone result (HasNoneFrom captures.now date) }
    ensures some { IfSome result (λ entry. IsFirstFrom captures.now date entry.now) }
    ensures step { steps.new ≡ steps.old + 1 }
{
    steps.tick();
    match captures {
        Captures::One(entry) => only_from(entry, date),
        Captures::Many(places) => first_of(places, date),
    }
}

/// The first capture after the time.
pub(crate) fn first_after<'a, L: Ledger>(
    captures: &'a Captures,
    time: u64,
    steps: &mut Steps<L>,
) -> Option<&'a Entry>
    ensures none { IfNone result (HasNoneAfter captures.now time) }
    ensures some { IfSome result (λ entry. IsFirstAfter captures.now time entry.now) }
    ensures step { steps.new ≡ steps.old + 1 }
{
    steps.tick();
    match captures {
        Captures::One(entry) => only_after(entry, time),
        Captures::Many(places) => next_of(places, time),
    }
}
