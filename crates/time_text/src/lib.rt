//! The texts of a date.
//!
//! A date is a `u64`: the milliseconds since 1970-01-01T00:00:00Z, up to the end of the year 9999. It
//! has three texts: its digits as in an archive's addresses (`20240131120000`), the WARC-Date of ISO
//! 28500 (`2024-01-31T12:00:00Z`) and the HTTP date of RFC 9110 (`Wed, 31 Jan 2024 12:00:00 GMT`).
//! The first two have three digits more exactly where the date isn't a whole second
//! (`20240131120000400`, `2024-01-31T12:00:00.400Z`), and the last drops the fraction.
//!
//! No other crate knows the unit of a date, or the length of its texts. Nothing here takes memory.
#![tactic(auto)]

mod civil;
mod digits;
mod http;
mod laws;
mod parts;
mod warc;

pub use digits::{TimeText, ends_with_a_unit, read_time, write_digits, write_time};
pub use http::{read_http, write_http};
pub use laws::{dates_are_told_by_their_texts, texts_end_where_they_end, texts_have_no_blanks};
use thiserror::Error;
pub use warc::{WarcTime, read_warc, warc_len, write_warc};

/// The latest date: 9999-12-31T23:59:59.999Z. Every date up to it has texts, and no later one.
pub const LATEST: u64 = 253_402_300_799_999;

/// The text names no date.
#[derive(Clone, Copy, Debug, Error)]
#[error("no date from 1970 to 9999")]
pub struct NotATime;

/// The date is later than [`LATEST`].
#[derive(Clone, Copy, Debug, Error)]
#[error("a date past the year 9999")]
pub struct Range;
