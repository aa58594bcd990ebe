//! Calls of `time_text`.
use crate::words::{always, number, told};
use capture::Memory;
use case_language::{number_in, split_word};
use std::alloc::Global;
use time_text::{
    NotATime, Range, ends_with_a_unit, read_http, read_time, read_warc, write_digits, write_http,
    write_time, write_warc,
};

/// The date that digits name.
pub fn read_time_of(alloc: Global, text: &[u8]) -> Result<Vec<u8>, Memory> {
    date_or_none(alloc, read_time(text))
}

/// The date that an HTTP date names.
pub fn read_http_of(alloc: Global, text: &[u8]) -> Result<Vec<u8>, Memory> {
    date_or_none(alloc, read_http(text))
}

/// The date that a WARC-Date names.
pub fn read_warc_of(alloc: Global, text: &[u8]) -> Result<Vec<u8>, Memory> {
    date_or_none(alloc, read_warc(text))
}

/// The date in milliseconds.
fn date_or_none(alloc: Global, read: Result<u64, NotATime>) -> Result<Vec<u8>, Memory> {
    match read {
        Ok(date) => number(alloc, date),
        Err(NotATime) => told(alloc, b"NotATime"),
    }
}

/// The digits of a date.
pub fn write_time_of(alloc: Global, text: &[u8]) -> Result<Option<Vec<u8>>, Memory> {
    let Some(date) = number_in(text) else {
        return Ok(None);
    };
    match write_time(date) {
        Ok(time) => always(told(alloc, time.as_slice())),
        Err(Range) => out_of_range(alloc),
    }
}

/// The HTTP date of a date.
pub fn write_http_of(alloc: Global, text: &[u8]) -> Result<Option<Vec<u8>>, Memory> {
    let Some(date) = number_in(text) else {
        return Ok(None);
    };
    match write_http(date) {
        Ok(time) => always(told(alloc, &time)),
        Err(Range) => out_of_range(alloc),
    }
}

/// The WARC-Date of a date.
pub fn write_warc_of(alloc: Global, text: &[u8]) -> Result<Option<Vec<u8>>, Memory> {
    let Some(date) = number_in(text) else {
        return Ok(None);
    };
    match write_warc(date) {
        Ok(time) => always(told(alloc, time.as_slice())),
        Err(Range) => out_of_range(alloc),
    }
}

/// The first digits of a date, which stands behind their number and a space.
pub fn write_digits_of(alloc: Global, text: &[u8]) -> Result<Option<Vec<u8>>, Memory> {
    let Some((digits, date)) = split_word(text) else {
        return Ok(None);
    };
    let (Some(digits), Some(date)) = (number_in(digits.as_bytes()), number_in(date)) else {
        return Ok(None);
    };
    always(digits_written(alloc, digits as usize, date))
}

/// `NoUnit` where so many digits end inside a unit.
fn digits_written(alloc: Global, digits: usize, date: u64) -> Result<Vec<u8>, Memory> {
    if !ends_with_a_unit(digits) {
        return told(alloc, b"NoUnit");
    }
    match write_digits(date, digits) {
        Ok(time) => told(alloc, time.as_slice()),
        Err(Range) => told(alloc, b"Range"),
    }
}

/// The answer for a date that has no text.
fn out_of_range(alloc: Global) -> Result<Option<Vec<u8>>, Memory> {
    always(told(alloc, b"Range"))
}
