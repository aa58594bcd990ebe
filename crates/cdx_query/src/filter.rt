//! Which entries a query asks for.
ghost use Rattle.std.specs.Prelude.{◌≡◌, ◌&&◌, true, false, ℕ, ◌++◌, drop, length, take, MatchOption};
ghost use Rattle.time_text.specs.Texts.{InRange, all_digits};
ghost use Rattle.cdx_query.specs.Picking as spec;

use crate::read::host_len;
use crate::{MatchKind, Query};
use capture::Text;
use index_entry::Entry;
use time_text::{TimeText, write_digits};

/// How many digits a date has, to the millisecond.
const DIGITS: usize = 17;

/// Whether the entry meets all that the query says but the limit.
pub fn meets(query: &Query, entry: &Entry) -> bool
    ensures { result ≡ spec.meets query.now entry.now }
{
    is_match(query.kind, query.key.as_slice(), entry.key.as_slice()) && is_within(query, entry)
}

/// Whether a key meets the match type of a query, whose key is the first.
fn is_match(kind: MatchKind, key: &[u8], other: &[u8]) -> bool
    ensures { result ≡ spec.is_match kind key.now other.now }
{
    match kind {
        MatchKind::Exact => key == other,
        MatchKind::Prefix => other.starts_with(key),
        MatchKind::Host => is_behind(host_of(key), b")", other),
        MatchKind::Domain => {
            is_behind(host_of(key), b")", other) || is_behind(host_of(key), b",", other)
        }
    }
}

/// The host in a key, with its port.
fn host_of(key: &[u8]) -> &[u8]
    ensures { result.now ≡ spec.host_of key.now }
{
    &key[..host_len(key)]
}

/// Whether the key begins with the host and this mark behind it.
fn is_behind(host: &[u8], mark: &[u8], key: &[u8]) -> bool
    ensures { result ≡ spec.begins (host.now ++ mark.now) key.now }
{
    match behind(key, host) {
        Some(rest) => rest.starts_with(mark),
        None => false,
    }
}

/// What stands behind the front, where the text begins with it.
fn behind<'a>(text: &'a [u8], front: &[u8]) -> Option<&'a [u8]>
    ensures { MatchOption result (spec.begins front.now text.now ≡ false)
        (λ rest. (spec.begins front.now text.now ≡ true) × (rest.now ≡ drop (length front.now) text.now)) }
{
    if !text.starts_with(front) {
        return None;
    }
    let (_, rest) = text.split_at(front.len());
    Some(rest)
}

/// Whether the date of the entry is within the times of the query.
fn is_within(query: &Query, entry: &Entry) -> bool
    ensures { result ≡ (spec.is_from query.now.from entry.now.date && spec.is_to query.now.to entry.now.date) }
{
    if query.from.is_none() && query.to.is_none() {
        return true;
    }
    let digits = digits_of(entry);
    is_from(&query.from, digits.as_slice()) && is_to(&query.to, digits.as_slice())
}

/// All digits of the entry's date.
fn digits_of(entry: &Entry) -> TimeText
    ensures { result ≡ all_digits entry.now.date }
{
    match write_digits(date_of(entry), DIGITS) {
        Ok(digits) => digits,
        Err(_) => unreachable!(),
    }
}

/// The date of the entry, which has digits.
fn date_of(entry: &Entry) -> u64
    ensures value { result ≡ entry.now.date }
    ensures in_range { InRange result }
{
    entry.date
}

/// Whether the date of these digits isn't before a time.
fn is_from(from: &Option<Text>, digits: &[u8]) -> bool
    ensures { (date : ℕ) → digits.now ≡ all_digits date → result ≡ spec.is_from from.now date }
{
    match from {
        None => true,
        Some(from) => is_up_to(from.as_slice(), front(digits, from.as_slice().len())),
    }
}

/// Whether the date of these digits isn't behind a time.
fn is_to(to: &Option<Text>, digits: &[u8]) -> bool
    ensures { (date : ℕ) → digits.now ≡ all_digits date → result ≡ spec.is_to to.now date }
{
    match to {
        None => true,
        Some(to) => is_up_to(front(digits, to.as_slice().len()), to.as_slice()),
    }
}

/// The first bytes, as many as there are of so many.
fn front(text: &[u8], count: usize) -> &[u8]
    ensures { result.now ≡ take count text.now }
{
    &text[..count.min(text.len())]
}

/// Whether the first text isn't behind the second, in the order of their bytes.
fn is_up_to(a: &[u8], b: &[u8]) -> bool
    ensures { result ≡ spec.is_up_to a.now b.now }
{
    a.cmp(&b).is_le()
}
