//! Calls of `load_maker`.
use crate::words::{always, number, told};
use capture::{Bytes, Memory};
use case_language::{number_in, split_word};
use load_maker::{client, date, origin, payload, uri};
use std::alloc::Global;

/// Two numbers, with a space between them, of which the second is that of an exchange.
fn numbers_in(text: &[u8]) -> Option<(u64, u32)> {
    let (first, second) = split_word(text)?;
    let second = u32::try_from(number_in(second)?).ok()?;
    Some((number_in(first.as_bytes())?, second))
}

/// A text that was made, as an answer.
fn copied(alloc: Global, text: Bytes) -> Result<Vec<u8>, Memory> {
    told(alloc, text.as_slice())
}

/// The requests of exchanges from one number up to another.
pub fn client_of(alloc: Global, text: &[u8]) -> Result<Option<Vec<u8>>, Memory> {
    let Some((from, to)) = numbers_in(text) else {
        return Ok(None);
    };
    match u32::try_from(from) {
        Ok(from) => always(copied(alloc, client(alloc, from, to)?)),
        Err(_) => Ok(None),
    }
}

/// The response of an exchange's origin, behind the number of the load.
pub fn origin_of(alloc: Global, text: &[u8]) -> Result<Option<Vec<u8>>, Memory> {
    match numbers_in(text) {
        Some((seed, number)) => always(copied(alloc, origin(alloc, seed, number)?)),
        None => Ok(None),
    }
}

/// The payload of an exchange, behind the number of the load.
pub fn payload_of(alloc: Global, text: &[u8]) -> Result<Option<Vec<u8>>, Memory> {
    match numbers_in(text) {
        Some((seed, number)) => always(copied(alloc, payload(alloc, seed, number)?)),
        None => Ok(None),
    }
}

/// The URL of an exchange.
pub fn uri_of(alloc: Global, text: &[u8]) -> Result<Option<Vec<u8>>, Memory> {
    match exchange_in(text) {
        Some(exchange) => always(copied(alloc, uri(alloc, exchange)?)),
        None => Ok(None),
    }
}

/// When an exchange is, in milliseconds since 1970.
pub fn date_of(alloc: Global, text: &[u8]) -> Result<Option<Vec<u8>>, Memory> {
    match exchange_in(text) {
        Some(exchange) => always(number(alloc, date(exchange))),
        None => Ok(None),
    }
}

/// The number of an exchange.
fn exchange_in(text: &[u8]) -> Option<u32> {
    u32::try_from(number_in(text)?).ok()
}
