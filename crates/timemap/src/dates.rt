//! The dates of entries.
ghost use Rattle.std.specs.Prelude.{◌≡◌, ◌<◌, length};
ghost use Rattle.time_text.specs.Texts.{InRange};
ghost use Rattle.timemap.specs.LinkList as spec;

use index_entry::Entry;

/// The date of an entry, which has a text.
pub fn date_of(entry: &Entry) -> u64
    ensures value { result ≡ entry.now.date }
    ensures in_range { InRange result }
{
    entry.date
}

/// The date of the last entry.
pub fn last_date(entries: &[Entry]) -> u64
    requires { 0 < length entries.now }
    ensures value { result ≡ spec.last_date entries.now }
    ensures in_range { InRange result }
{
    date_of(&entries[entries.len() - 1])
}
