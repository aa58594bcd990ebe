//! Entries of an index, each of a url of its own.
ghost use Rattle.std.specs.Prelude.{◌≡◌, IfOk};

use capture::{Memory, Text};
use index_entry::Entry;
use short_text::ShortText;
use std::alloc::Global;
use surt_key::{KeyFault, key_of};

/// 2024-01-31T12:00:00Z, in milliseconds since 1970.
pub const NOON: u64 = 1_706_702_400_000;

/// A step through the numbers below a million that leaves none out.
const STEP: u64 = 700_001;

/// A number below the count, another one for each number below it where the count and the step have no common factor.
pub fn shuffled(i: u32, count: u32) -> u32 {
    let place = u64::from(i)
        .wrapping_mul(STEP)
        .checked_rem(u64::from(count));
    u32::try_from(place.unwrap_or(0)).unwrap_or(0)
}

/// The url of a site. Urls are in the order of their numbers.
pub fn url_of(alloc: Global, site: u32) -> Result<String, Memory> {
    Ok(format!(in alloc; "http://www.site{site:07}.test/index.html")?)
}

/// An entry of the site's url.
pub fn entry_of(alloc: Global, site: u32, number: u32) -> Result<Entry, Memory>
    ensures { IfOk result (λ entry. entry.number ≡ number) }
{
    let uri = url_of(alloc, site)?;
    let key = match key_of(alloc, uri.as_bytes()) {
        Ok(key) => key,
        Err(KeyFault::NotHttp | KeyFault::Memory) => return Err(Memory),
    };
    Ok(Entry {
        key,
        date: NOON + u64::from(number),
        number,
        uri: text_of(alloc, uri.as_str())?,
        mime: ShortText::from_str(alloc, "text/html")?,
        status: 200,
        digest: [7; 20],
        volume: 0,
        offset: u64::from(number),
        length: 1_000,
    })
}

/// The text in memory of its own.
pub fn text_of(alloc: Global, text: &str) -> Result<Text, Memory>
    ensures { IfOk result (λ copy. copy ≡ text.now) }
{
    match Text::of(Vec::from_slice(alloc, text.as_bytes())?) {
        Some(text) => Ok(text),
        None => Err(Memory),
    }
}
