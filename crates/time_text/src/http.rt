//! A date as an HTTP field has it.

ghost use Rattle.std.specs.Prelude.{◌≡◌, ◌≤◌, ℕ, Ok, IfOk, OnErr};
ghost use Rattle.std.specs.Result.{OkIff};
ghost use Rattle.time_text.specs.Texts.{InRange, whole_second, http_date};
ghost use Rattle.time_text.specs.Blanks as Blanks;
ghost use Rattle.time_text.specs.Blanks.{trim_start, trim_end, trim_blanks};
ghost use Rattle.time_text.specs.Reading.{IsHttpDate};

use crate::{NotATime, Range};
use httpdate::HttpDate;

/// The HTTP date of a date, an IMF-fixdate (RFC 9110, 5.6.7), which drops the fraction of a second.
/// `Range` where the date is later than `LATEST`.
pub fn write_http(date: u64) -> Result<[u8; 29], Range>
    ensures { OkIff result (InRange date) (http_date date) }
{
    let Ok(date) = HttpDate::from_unix_secs(date / 1000) else {
        return Err(Range);
    };
    Ok(date.to_bytes())
}

/// The date that a field's value shows in one of the three formats of RFC 9110 (5.6.7), with blanks
/// round it or not. `NotATime` where it shows none.
pub fn read_http(text: &[u8]) -> Result<u64, NotATime>
    ensures in_range { IfOk result InRange }
    ensures read { IfOk result (IsHttpDate (trim_blanks text.now)) }
    ensures refused { OnErr result ((date : ℕ) → ¬ (IsHttpDate (trim_blanks text.now) date)) }
    ensures reads_back { (date : ℕ) → InRange date → text.now ≡ http_date date → result
        ≡ Ok (whole_second date) }
{
    let Ok(date) = HttpDate::parse_ascii(without_blanks(text)) else {
        return Err(NotATime);
    };
    Ok(date.unix_secs() * 1000)
}

/// What of the text stands between the spaces and tabs at both its ends.
#[tactic(auto, unfolding(crate::specs::Blanks::trim_blanks))]
fn without_blanks(text: &[u8]) -> &[u8]
    ensures { result.now ≡ trim_blanks text.now }
{
    without_last_blanks(without_first_blanks(text))
}

/// The text from its first byte on that is neither a space nor a tab; nothing where it has none.
fn without_first_blanks(mut text: &[u8]) -> &[u8]
    ensures { result.now ≡ trim_start text.entry.now }
{
    'front: while let Some((first, rest)) = text.split_first() {
        if !is_blank(*first) {
            return text;
        }
        text = rest;
    }
    text
}

/// The text up to and with its last byte that is neither a space nor a tab; nothing where it has
/// none.
fn without_last_blanks(mut text: &[u8]) -> &[u8]
    ensures { result.now ≡ trim_end text.entry.now }
{
    'back: while let Some((last, rest)) = text.split_last() {
        if !is_blank(*last) {
            return text;
        }
        text = rest;
    }
    text
}

/// Whether it is a space or a tab (RFC 9110, 5.6.3).
fn is_blank(byte: u8) -> bool
    ensures { result ≡ Blanks.is_blank byte }
{
    byte == b' ' || byte == b'\t'
}
