//! The entries that were asked for, one at a time.
ghost use Rattle.std.specs.Prelude.{◌≡◌, []};
ghost use Rattle.std.specs.Iterator.{YieldsFirstRef, item_count};
ghost use Rattle.cdxj_index.specs.Maps.{AreKeys, entries_of, left_of, shown};
ghost use Rattle.index_entry.specs.Queries.{starting_with};

use crate::entry_map::captures::Captures;
use crate::shared::Shared;
use index_entry::{Entry, Moment};
use std::collections::{BTreeMap, btree_map};
use std::marker::Model;
use surt_key::Key;

/// The entries of a key, in order. A clause sees the list of those that are left.
#[derive(Drop)]
pub struct Range<'a> {
    one: Option<&'a Entry>,
    captures: Option<btree_map::Values<'a, Moment, Shared>>,
}

impl<'a> Model for Range<'a> {
    ghost use Rattle.std.specs.Prelude.{List, option_copied};
    ghost use Rattle.index_entry.specs.Facts.{Facts};
    ghost use Rattle.cdxj_index.specs.Maps.{shown_left};

    ghost Value = { List Facts };

    ghost view = { λ range. shown_left (option_copied range.one) range.captures };
}

impl<'a> Range<'a> {
    /// No entries.
    pub(crate) fn none() -> Range<'a>
        ensures { result ≡ [] }
    {
        Range {
            one: None,
            captures: None,
        }
    }

    /// The entries of a key.
    pub(crate) fn of(captures: &'a Captures) -> Range<'a>
        ensures { result ≡ shown captures.now }
    {
        match captures {
            Captures::One(entry) => Range {
                one: Some(entry.facts()),
                captures: None,
            },
            Captures::Many(places) => Range {
                one: None,
                captures: Some(places.values()),
            },
        }
    }
}

impl<'a> Iterator for Range<'a> {
    type Item = &'a Entry;

    ghost next_gives = { YieldsFirstRef (λ left. left) };

    ghost remaining = { item_count (λ left. left) };

    fn next(&mut self) -> Option<&'a Entry> {
        if let Some(entry) = self.one.take() {
            return Some(entry);
        }
        let captures = self.captures.as_mut()?;
        let entry = captures.next()?;
        Some(entry.facts())
    }
}

/// The entries whose key begins with some bytes, in order. A clause sees the list of those that are left.
#[derive(Drop)]
pub struct Starting<'a> {
    start: &'a [u8],
    keys: Option<btree_map::Range<'a, Key, Captures>>,
    captures: Range<'a>,
}

impl<'a> Model for Starting<'a> {
    ghost use Rattle.std.specs.Prelude.{List};
    ghost use Rattle.index_entry.specs.Facts.{Facts};
    ghost use Rattle.cdxj_index.specs.Maps.{left_of};

    ghost Value = { List Facts };

    ghost view = { λ starting. left_of starting.start.now starting.keys starting.captures };
}

impl<'a> Starting<'a> {
    /// The entries of all these keys.
    pub(crate) fn all(keys: &'a BTreeMap<Key, Captures>) -> Starting<'a>
        ensures { result ≡ entries_of keys.now }
    {
        Starting {
            start: &[],
            keys: Some(keys.range(..)),
            captures: Range::none(),
        }
    }

    /// The entries of these keys that begin with the bytes of `start`.
    pub(crate) fn of(keys: &'a BTreeMap<Key, Captures>, start: &Key) -> Starting<'a>
        requires { AreKeys keys.now }
        ensures { result ≡ starting_with start.now (entries_of keys.now) }
    {
        let bytes = start.as_slice();
        match keys.range(start..).next() {
            // The bytes are those of a key, so that `start` needn't live as long.
            Some((first, _)) if first.as_slice().starts_with(bytes) => Starting {
                start: &first.as_slice()[..bytes.len()],
                keys: Some(keys.range(start..)),
                captures: Range {
                    one: None,
                    captures: None,
                },
            },
            _ => Starting {
                start: &[],
                keys: None,
                captures: Range {
                    one: None,
                    captures: None,
                },
            },
        }
    }
}

impl<'a> Iterator for Starting<'a> {
    type Item = &'a Entry;

    ghost next_gives = { YieldsFirstRef (λ left. left) };

    ghost remaining = { item_count (λ left. left) };

    fn next(&mut self) -> Option<&'a Entry> {
        next_of(self.start, &mut self.keys, &mut self.captures)
    }
}

/// The next entry of a key, or of the first key after it that has one. At a key that doesn't begin with `start` there
/// are none left.
fn next_of<'a>(
    start: &[u8],
    keys: &mut Option<btree_map::Range<'a, Key, Captures>>,
    captures: &mut Range<'a>,
) -> Option<&'a Entry>
    ensures { YieldsFirstRef (λ left. left) (left_of start.now keys.old captures.old) result (left_of start.now keys.new captures.new) }
{
    loop {
        if let Some(entry) = captures.next() {
            return Some(entry);
        }
        let (key, next) = keys.as_mut()?.next()?;
        if !key.as_slice().starts_with(start) {
            *keys = None;
            return None;
        }
        *captures = Range::of(next);
    }
}
