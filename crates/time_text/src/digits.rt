//! A date in digits alone, as an archive's addresses and an index's lines have it.

ghost use Rattle.std.specs.Prelude.{◌≡◌, ◌≤◌, ◌<◌, ℕ, List, ◌↔◌, IsTrue, Contains, Ok, IfOk, OnErr, MatchResult, length, take};
ghost use Rattle.std.specs.Result.{OkIff};
ghost use Rattle.time_text.specs.Texts.{InRange, all_digits, count_of_digits, time_digits};
ghost use Rattle.time_text.specs.Reading.{lengths, Names, IsEarliest};

use crate::civil::Civil;
use crate::{NotATime, Range};
use std::marker::Model;

/// How many digits end with a unit: a year, month, day, hour, minute, second or millisecond.
const LENGTHS: [usize; 7] = [4, 6, 8, 10, 12, 14, 17];

/// A date in digits, or its front up to a whole unit.
#[derive(Drop)]
pub struct TimeText {
    digits: [u8; 17],
    len: usize,
}

impl Model for TimeText {
    ghost Value = { List ℕ };

    ghost view = { λ t. take t.len t.digits };

    ghost invariant = { λ t. t.len ≤ 17 };
}

impl TimeText {
    /// The digits as bytes.
    pub fn as_slice(&self) -> &[u8]
        ensures { result.now ≡ self.now }
    {
        &self.digits[..self.len]
    }
}

/// The digits of a date: `YYYYMMDDhhmmss`, and three for the milliseconds exactly where it isn't a
/// whole second. `Range` where the date is later than `LATEST`.
pub fn write_time(date: u64) -> Result<TimeText, Range>
    ensures { OkIff result (InRange date) (time_digits date) }
{
    write_digits(date, needed(date))
}

/// The first digits of a date, as many as [`ends_with_a_unit`] takes, so that smaller units are
/// dropped. `Range` where the date is later than `LATEST`.
pub fn write_digits(date: u64, digits: usize) -> Result<TimeText, Range>
    requires { Contains lengths digits }
    ensures { OkIff result (InRange date) (take digits (all_digits date)) }
{
    let civil = Civil::at(date)?;
    Ok(TimeText {
        digits: civil.digits(),
        len: digits,
    })
}

/// How many digits say the whole date.
fn needed(date: u64) -> usize
    ensures value { result ≡ count_of_digits date }
    ensures names { Contains lengths result }
{
    if date.is_multiple_of(1000) { 14 } else { 17 }
}

/// The date that 4, 6, 8, 10, 12, 14 or 17 digits name, the earliest where they leave units out.
/// `NotATime` where they name none.
pub fn read_time(text: &[u8]) -> Result<u64, NotATime>
    ensures read { IfOk result (IsEarliest text.now) }
    ensures refused { OnErr result ((date : ℕ) → ¬ (Names text.now date)) }
    ensures reads_back { (date : ℕ) → InRange date → text.now ≡ time_digits date → result
        ≡ Ok date }
{
    if !ends_with_a_unit(text.len()) {
        return Err(NotATime);
    }
    // The units that are left out begin here.
    let mut digits = *b"00000101000000000";
    digits[..text.len()].copy_from_slice(text);
    date_of(&digits)
}

/// Whether so many digits end with a year or with a later unit.
pub fn ends_with_a_unit(len: usize) -> bool
    ensures { IsTrue result ↔ Contains lengths len }
{
    LENGTHS.contains(&len)
}

/// The date of all its digits.
fn date_of(digits: &[u8; 17]) -> Result<u64, NotATime>
    ensures { MatchResult result (λ date. InRange date × (digits.now ≡ all_digits date))
        (λ _. (date : ℕ) → InRange date → ¬ (digits.now ≡ all_digits date)) }
{
    Civil::of_digits(digits)?.date()
}
