//! Steps that bring captures back and find them by date, and what they tell.
use crate::replies::{damage_text, put_digest};
use crate::told::{told_bytes, told_text};
use archive_shelf::{BringFault, Finder, Shelf};
use capture::{Brought, Memory, put_all};
use case_language::{number_in, split_word};
use case_texts::{key_in, put_next, put_next_number};
use index_entry::Entry;
use std::alloc::Global;
use surt_key::Key;

/// The capture's method, target and date, and behind a space its head and its payload; or the fault.
pub fn brought<S: Shelf>(alloc: Global, shelf: &mut S, number: u32) -> Result<Vec<u8>, Memory> {
    match shelf.bring(alloc, number) {
        Ok(brought) => brought_text(alloc, &brought),
        Err(fault) => bring_fault_bytes(alloc, fault),
    }
}

/// The same of a capture that was brought.
pub fn brought_text(alloc: Global, brought: &Brought) -> Result<Vec<u8>, Memory> {
    let mut out = Vec::new(alloc);
    put_brought(&mut out, brought)?;
    Ok(out)
}

fn put_brought(out: &mut Vec<u8>, brought: &Brought) -> Result<(), Memory> {
    put_all(out, brought.method.as_slice())?;
    put_next(out, brought.uri.as_slice())?;
    put_next_number(out, brought.date)?;
    put_next(out, brought.head.as_slice())?;
    put_all(out, brought.payload.as_slice())
}

/// Why no capture was brought.
pub fn bring_fault_bytes(alloc: Global, fault: BringFault) -> Result<Vec<u8>, Memory> {
    let text = fault_text(alloc, fault)?;
    Ok(text.into_bytes())
}

fn fault_text(alloc: Global, fault: BringFault) -> Result<String, Memory> {
    match fault {
        BringFault::NoSuch { count } => Ok(format!(in alloc; "NoSuch {count}")?),
        BringFault::DiskFault => Ok(String::from_str(alloc, "DiskFault")?),
        BringFault::Damaged {
            number,
            kept,
            found,
        } => damage_text(alloc, number, &kept, found),
        BringFault::Memory => Err(Memory),
    }
}

/// The number of the capture of a url that is nearest to a time, or `None`. The text is the time in milliseconds, a space, and the
/// url. `None` where the text is none of that kind.
pub fn found_by_date<F: Finder>(
    alloc: Global,
    finder: &mut F,
    text: &[u8],
) -> Result<Option<Vec<u8>>, Memory> {
    let Some((time, uri)) = split_word(text) else {
        return Ok(None);
    };
    let Some(time) = number_in(time.as_bytes()) else {
        return Ok(None);
    };
    match key_in(alloc, uri)? {
        Some(key) => told_text(nearest_to(alloc, finder, &key, time)),
        None => Ok(None),
    }
}

fn nearest_to<F: Finder>(
    alloc: Global,
    finder: &mut F,
    key: &Key,
    time: u64,
) -> Result<String, Memory> {
    match finder.by_date(alloc, key, time)? {
        Some(entry) => number_text(alloc, entry.number),
        None => Ok(String::from_str(alloc, "None")?),
    }
}

/// A number.
pub fn number_text(alloc: Global, number: u32) -> Result<String, Memory> {
    Ok(format!(in alloc; "{number}")?)
}

/// The numbers of a url's captures, in order.
pub fn mapped<F: Finder>(
    alloc: Global,
    finder: &mut F,
    uri: &[u8],
) -> Result<Option<Vec<u8>>, Memory> {
    match key_in(alloc, uri)? {
        Some(key) => told_bytes(with_key(alloc, finder, &key)),
        None => Ok(None),
    }
}

/// The numbers of the captures whose key begins with that of the url, in order.
pub fn starting_with<F: Finder>(
    alloc: Global,
    finder: &mut F,
    uri: &[u8],
) -> Result<Option<Vec<u8>>, Memory> {
    match key_in(alloc, uri)? {
        Some(key) => told_bytes(beginning_with(alloc, finder, &key)),
        None => Ok(None),
    }
}

fn with_key<F: Finder>(alloc: Global, finder: &mut F, key: &Key) -> Result<Vec<u8>, Memory> {
    let entries = finder.map(alloc, key)?;
    numbers_of(alloc, entries.as_slice())
}

fn beginning_with<F: Finder>(alloc: Global, finder: &mut F, key: &Key) -> Result<Vec<u8>, Memory> {
    let entries = finder.starting(alloc, key)?;
    numbers_of(alloc, entries.as_slice())
}

/// The numbers of these, in order.
pub fn numbers_of(alloc: Global, entries: &[Entry]) -> Result<Vec<u8>, Memory> {
    let mut out = Vec::new(alloc);
    put_numbers(&mut out, entries)?;
    Ok(out)
}

fn put_numbers(out: &mut Vec<u8>, entries: &[Entry]) -> Result<(), Memory> {
    for entry in entries {
        put_next_number(out, u64::from(entry.number))?;
    }
    Ok(())
}

/// What the index knows of a capture: its volume, and the place and the length of its first record there, its date, status, media
/// type, digest, target and key.
pub fn entry_text(alloc: Global, entry: Option<&Entry>) -> Result<String, Memory> {
    let Some(entry) = entry else {
        return Ok(String::from_str(alloc, "None")?);
    };
    let (volume, offset, length) = (entry.volume, entry.offset, entry.length);
    let (date, status) = (entry.date, entry.status);
    let mut text = format!(in alloc; "{volume} {offset} {length} {date} {status} ")?;
    put_rest(&mut text, entry)?;
    Ok(text)
}

fn put_rest(text: &mut String, entry: &Entry) -> Result<(), Memory> {
    text.push_str(entry.mime.as_str())?;
    text.push(' ')?;
    put_digest(text, &entry.digest)?;
    text.push(' ')?;
    text.push_str(entry.uri.as_str())?;
    Ok(())
}
