//! Calls of `cdxj_index`. Each text begins with what is asked; behind each `;` stands an entry, which is a date in
//! milliseconds, a number and a url, or the number of one that is taken back.
ghost use Rattle.std.specs.Prelude.{◌≡◌, ◌<◌};

use capture::{Memory, Text};
use case_language::{number_in, split_part, split_word};
use case_texts::{always, key_in, number, put_next_number, told};
use cdxj_index::{Index, Steps};
use index_entry::Entry;
use short_text::ShortText;
use std::alloc::Global;
use std::marker::Brand;
use std::sync::ledger::{Blank, Ledger};
use surt_key::{Key, KeyFault, key_of};
use time_text::LATEST;

/// What a call is asked of an index.
#[derive(Drop)]
struct Asked {
    key: Key,
    index: Index,
}

/// The key of the url, and the index of the entries. `None` where the url has none, or one is no entry.
fn asked_of(alloc: Global, uri: &[u8], entries: &[u8]) -> Result<Option<Asked>, Memory> {
    let Some(index) = index_of(alloc, entries)? else {
        return Ok(None);
    };
    match key_in(alloc, uri) {
        Ok(Some(key)) => Ok(Some(Asked { key, index })),
        Ok(None) => Ok(None),
        Err(Memory) => Err(Memory),
    }
}

/// The number of the entry that is nearest to a time, or `None`. Asked is for the time and the url.
pub fn nearest_of(alloc: Global, text: &[u8]) -> Result<Option<Vec<u8>>, Memory> {
    let (asked, entries) = split_part(text);
    let Some((time, uri)) = split_word(asked) else {
        return Ok(None);
    };
    let Some(time) = number_in(time.as_bytes()) else {
        return Ok(None);
    };
    match asked_of(alloc, uri, entries)? {
        Some(asked) => always(nearest_to(alloc, &asked, time)),
        None => Ok(None),
    }
}

fn nearest_to(alloc: Global, asked: &Asked, time: u64) -> Result<Vec<u8>, Memory> {
    match number_of_nearest::<Brand>(&asked.index, &asked.key, time, Blank::new(1)) {
        Some(found) => number(alloc, u64::from(found)),
        None => told(alloc, b"None"),
    }
}

fn number_of_nearest<L: Ledger>(index: &Index, key: &Key, time: u64, blank: Blank) -> Option<u32>
    requires name { blank.name ≡ L.name }
    requires parts { blank.parts ≡ L.parts }
    requires some { 0 < L.parts }
{
    let mut steps = Steps::<L>::new(blank);
    match index.nearest(key, time, &mut steps) {
        Some(entry) => Some(entry.number),
        None => None,
    }
}

/// The numbers of a key's entries, in order. Asked is for the url.
pub fn of_key(alloc: Global, text: &[u8]) -> Result<Option<Vec<u8>>, Memory> {
    let (uri, entries) = split_part(text);
    match asked_of(alloc, uri, entries)? {
        Some(asked) => always(with_key(alloc, &asked)),
        None => Ok(None),
    }
}

fn with_key(alloc: Global, asked: &Asked) -> Result<Vec<u8>, Memory> {
    let mut out = Vec::new(alloc);
    for entry in asked.index.range(&asked.key) {
        put_next_number(&mut out, u64::from(entry.number))?;
    }
    Ok(out)
}

/// The numbers of the entries whose key begins with that of a url, in order. Asked is for the url.
pub fn starting(alloc: Global, text: &[u8]) -> Result<Option<Vec<u8>>, Memory> {
    let (uri, entries) = split_part(text);
    match asked_of(alloc, uri, entries)? {
        Some(asked) => always(starting_with(alloc, &asked)),
        None => Ok(None),
    }
}

fn starting_with(alloc: Global, asked: &Asked) -> Result<Vec<u8>, Memory> {
    let mut out = Vec::new(alloc);
    for entry in asked.index.starting(&asked.key) {
        put_next_number(&mut out, u64::from(entry.number))?;
    }
    Ok(out)
}

/// The index of these entries, one behind the other. `None` where one is no entry.
fn index_of(alloc: Global, entries: &[u8]) -> Result<Option<Index>, Memory> {
    let mut index = Index::new(alloc);
    match add_all(alloc, &mut index, entries) {
        Ok(true) => Ok(Some(index)),
        Ok(false) => Ok(None),
        Err(Memory) => Err(Memory),
    }
}

/// Adds these entries, up to the first that is none. Whether all are entries.
fn add_all(alloc: Global, index: &mut Index, entries: &[u8]) -> Result<bool, Memory> {
    for text in entries.split(|byte| *byte == b';') {
        if !text.is_empty() && !add(alloc, index, text.strip_prefix(b" ").unwrap_or(text))? {
            return Ok(false);
        }
    }
    Ok(true)
}

/// Adds an entry or takes one back, and says whether the text is one of them.
fn add(alloc: Global, index: &mut Index, text: &[u8]) -> Result<bool, Memory> {
    let Some((date, rest)) = split_word(text) else {
        return take_back(index, text);
    };
    let Some((number, uri)) = split_word(rest) else {
        return Ok(false);
    };
    let (Some(date), Some(number)) = (number_in(date.as_bytes()), number_in(number.as_bytes()))
    else {
        return Ok(false);
    };
    let Ok(number) = u32::try_from(number) else {
        return Ok(false);
    };
    let Some(entry) = entry_of(alloc, uri, date, number)? else {
        return Ok(false);
    };
    if index.at(entry.number).is_some() {
        return Ok(false);
    }
    index.add(alloc, entry)?;
    Ok(true)
}

/// An entry of the url. `None` where it has no key, or a record can't have the date.
pub fn entry_of(
    alloc: Global,
    uri: &[u8],
    date: u64,
    number: u32,
) -> Result<Option<Entry>, Memory> {
    let key = match key_of(alloc, uri) {
        Ok(key) => key,
        Err(KeyFault::NotHttp) => return Ok(None),
        Err(KeyFault::Memory) => return Err(Memory),
    };
    let Some(uri) = Text::of(Vec::from_slice(alloc, uri)?) else {
        return Ok(None);
    };
    if date > LATEST {
        return Ok(None);
    }
    Ok(Some(Entry {
        key,
        date,
        number,
        uri,
        mime: ShortText::from_str(alloc, "text/html")?,
        status: 200,
        digest: [0; 20],
        volume: 0,
        offset: 0,
        length: 0,
    }))
}

fn take_back(index: &mut Index, text: &[u8]) -> Result<bool, Memory> {
    let Some(number) = number_in(text) else {
        return Ok(false);
    };
    match u32::try_from(number) {
        Ok(number) => {
            index.take_back(number);
            Ok(true)
        }
        Err(_) => Ok(false),
    }
}
