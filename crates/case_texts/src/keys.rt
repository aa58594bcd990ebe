//! Calls of `surt_key` and `capture`.
use crate::words::{always, put_next, told};
use capture::{Memory, accepted_uri};
use case_language::{number_in, split_word};
use std::alloc::Global;
use surt_key::{Key, KeyFault, KeyedUrl, key_of, key_of_address};

/// The look-up key.
pub fn key_text(alloc: Global, text: &[u8]) -> Result<Vec<u8>, Memory> {
    match key_of(alloc, text) {
        Ok(key) => told(alloc, key.as_slice()),
        Err(KeyFault::NotHttp) => told(alloc, b"NotHttp"),
        Err(KeyFault::Memory) => Err(Memory),
    }
}

/// The URL of an address, and its look-up key.
pub fn address_key(alloc: Global, text: &[u8]) -> Result<Vec<u8>, Memory> {
    match key_of_address(alloc, text) {
        Ok(keyed) => keyed_text(alloc, &keyed),
        Err(KeyFault::NotHttp) => told(alloc, b"NotHttp"),
        Err(KeyFault::Memory) => Err(Memory),
    }
}

fn keyed_text(alloc: Global, keyed: &KeyedUrl) -> Result<Vec<u8>, Memory> {
    let mut out = told(alloc, keyed.url.as_slice())?;
    put_next(&mut out, keyed.key.as_slice())?;
    Ok(out)
}

/// The key of a url. `None` where it has none.
pub fn key_in(alloc: Global, uri: &[u8]) -> Result<Option<Key>, Memory> {
    match key_of(alloc, uri) {
        Ok(key) => Ok(Some(key)),
        Err(KeyFault::NotHttp) => Ok(None),
        Err(KeyFault::Memory) => Err(Memory),
    }
}

/// How the key of a url stands to that of another one, behind a space.
pub fn key_order(alloc: Global, text: &[u8]) -> Result<Option<Vec<u8>>, Memory> {
    let Some((first, second)) = split_word(text) else {
        return Ok(None);
    };
    match key_in(alloc, first.as_bytes()) {
        Ok(Some(key)) => order_to(alloc, &key, second),
        Ok(None) => Ok(None),
        Err(Memory) => Err(Memory),
    }
}

fn order_to(alloc: Global, first: &Key, uri: &[u8]) -> Result<Option<Vec<u8>>, Memory> {
    match key_in(alloc, uri) {
        Ok(Some(second)) => always(told(alloc, order_text(first, &second))),
        Ok(None) => Ok(None),
        Err(Memory) => Err(Memory),
    }
}

fn order_text(first: &Key, second: &Key) -> &'static [u8] {
    if first == second {
        return b"equal";
    }
    if first < second {
        return b"less";
    }
    b"greater"
}

/// The first bytes of a url's key. The text is their number, a space, and the url.
pub fn key_prefix(alloc: Global, text: &[u8]) -> Result<Option<Vec<u8>>, Memory> {
    let Some((length, uri)) = split_word(text) else {
        return Ok(None);
    };
    let Some(length) = number_in(length.as_bytes()) else {
        return Ok(None);
    };
    match key_in(alloc, uri) {
        Ok(Some(key)) => prefix_of(alloc, &key, length as usize),
        Ok(None) => Ok(None),
        Err(Memory) => Err(Memory),
    }
}

/// `None` where the key is shorter.
fn prefix_of(alloc: Global, key: &Key, length: usize) -> Result<Option<Vec<u8>>, Memory> {
    if length > key.as_slice().len() {
        return Ok(None);
    }
    let prefix = key.prefix(length)?;
    always(told(alloc, prefix.as_slice()))
}

/// Whether the text is an accepted absolute target.
pub fn is_accepted(alloc: Global, text: &[u8]) -> Result<Vec<u8>, Memory> {
    if accepted_uri(alloc, text)? {
        told(alloc, b"true")
    } else {
        told(alloc, b"false")
    }
}
