//! Look-ups where a key has one capture.
ghost use Rattle.std.specs.Prelude.{IfNone, IfSome};
ghost use Rattle.cdxj_index.specs.declared.entry_map.captures.Captures.TheVariants.{One};
ghost use Rattle.cdxj_index.specs.Maps.{HasNoneAfter, HasNoneFrom, HasNoneUntil, IsFirstAfter, IsFirstFrom, IsLastUntil};

use crate::shared::Shared;
use index_entry::Entry;

/// The capture, where it is from the time or before it.
pub(crate) fn only_until(entry: &Shared, time: u64) -> Option<&Entry>
    ensures none { IfNone result (HasNoneUntil (One entry.now) time) }
    ensures some { IfSome result (λ last. IsLastUntil (One entry.now) time last.now) }
{
    let facts = entry.facts();
    if facts.date <= time {
        Some(facts)
    } else {
        None
    }
}

/// The capture, where it is of the date or a later one.
pub(crate) fn only_from(entry: &Shared, date: u64) -> Option<&Entry>
    ensures none { IfNone result (HasNoneFrom (One entry.now) date) }
    ensures some { IfSome result (λ first. IsFirstFrom (One entry.now) date first.now) }
{
    let facts = entry.facts();
    if date <= facts.date {
        Some(facts)
    } else {
        None
    }
}

/// The capture, where it is after the time.
pub(crate) fn only_after(entry: &Shared, time: u64) -> Option<&Entry>
    ensures none { IfNone result (HasNoneAfter (One entry.now) time) }
    ensures some { IfSome result (λ first. IsFirstAfter (One entry.now) time first.now) }
{
    let facts = entry.facts();
    if time < facts.date { Some(facts) } else { None }
}
