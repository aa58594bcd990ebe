//! Look-ups among several captures of a key.
ghost use Rattle.std.specs.Prelude.{IfNone, IfSome};
ghost use Rattle.cdxj_index.specs.declared.entry_map.captures.Captures.TheVariants.{Many};
ghost use Rattle.cdxj_index.specs.Maps.{HasNoneAfter, HasNoneFrom, HasNoneUntil, IsFirstAfter, IsFirstFrom, IsLastUntil};

use crate::entry_map::captures::Places;
use index_entry::Entry;
use std::ops::Bound;

/// The last capture up to the time.
pub(crate) fn last_of(places: &Places, time: u64) -> Option<&Entry>
    ensures none { IfNone result (HasNoneUntil (Many places.now) time) }
    ensures some { IfSome result (λ last. IsLastUntil (Many places.now) time last.now) }
{
    let (_, entry) = places.range(..=(time, u32::MAX)).next_back()?;
    Some(entry.facts())
}

/// The first capture of the date or a later one.
pub(crate) fn first_of(places: &Places, date: u64) -> Option<&Entry>
    ensures none { IfNone result (HasNoneFrom (Many places.now) date) }
    ensures some { IfSome result (λ first. IsFirstFrom (Many places.now) date first.now) }
{
    let (_, entry) = places.range((date, 0)..).next()?;
    Some(entry.facts())
}

/// The first capture after the time.
pub(crate) fn next_of(places: &Places, time: u64) -> Option<&Entry>
    ensures none { IfNone result (HasNoneAfter (Many places.now) time) }
    ensures some { IfSome result (λ first. IsFirstAfter (Many places.now) time first.now) }
{
    let after = (Bound::Excluded((time, u32::MAX)), Bound::Unbounded);
    let (_, entry) = places.range(after).next()?;
    Some(entry.facts())
}
