//! A date as a WARC record has it.

ghost use Rattle.std.specs.Prelude.{◌≡◌, ◌≤◌, ℕ, List, ◌++◌, length, take, Ok, IfOk, OnErr, MatchOption};
ghost use Rattle.std.specs.Result.{OkIff};
ghost use Rattle.time_text.specs.Calendar.{HasDigits};
ghost use Rattle.time_text.specs.Texts.{InRange, digits_of, warc_of, warc_date};
ghost use Rattle.time_text.specs.declared.civil.Civil.{Civil};

use crate::civil::Civil;
use crate::{NotATime, Range};
use std::marker::Model;

/// A WARC-Date.
#[derive(Drop)]
pub struct WarcTime {
    text: [u8; 24],
    len: usize,
}

impl Model for WarcTime {
    ghost Value = { List ℕ };

    ghost view = { λ t. take t.len t.text };

    ghost invariant = { λ t. t.len ≤ 24 };
}

impl WarcTime {
    /// The text as bytes.
    pub fn as_slice(&self) -> &[u8]
        ensures { result.now ≡ self.now }
    {
        &self.text[..self.len]
    }

    /// The text of what calendar and clock show.
    fn of(civil: Civil) -> WarcTime
        requires { HasDigits civil }
        ensures { result ≡ warc_of civil }
    {
        let [
            y0,
            y1,
            y2,
            y3,
            m0,
            m1,
            d0,
            d1,
            h0,
            h1,
            n0,
            n1,
            s0,
            s1,
            f0,
            f1,
            f2,
        ] = civil.digits();
        if civil.millisecond == 0 {
            return WarcTime {
                text: [
                    y0, y1, y2, y3, b'-', m0, m1, b'-', d0, d1, b'T', h0, h1, b':', n0, n1, b':',
                    s0, s1, b'Z', 0, 0, 0, 0,
                ],
                len: 20,
            };
        }
        WarcTime {
            text: [
                y0, y1, y2, y3, b'-', m0, m1, b'-', d0, d1, b'T', h0, h1, b':', n0, n1, b':', s0,
                s1, b'.', f0, f1, f2, b'Z',
            ],
            len: 24,
        }
    }
}

/// The WARC-Date of a date: `YYYY-MM-DDThh:mm:ssZ`, with three digits for the fraction (`.fff`)
/// exactly where it isn't a whole second (ISO 28500, 5.4). `Range` where the date is later than
/// `LATEST`.
pub fn write_warc(date: u64) -> Result<WarcTime, Range>
    ensures { OkIff result (InRange date) (warc_date date) }
{
    let civil = Civil::at(date)?;
    Ok(WarcTime::of(civil))
}

/// The length of a date's WARC-Date.
pub fn warc_len(date: u64) -> usize
    ensures { result ≡ length (warc_date date) }
{
    if date.is_multiple_of(1000) { 20 } else { 24 }
}

/// The date of a WARC-Date. `NotATime` where `write_warc` writes the text for no date.
pub fn read_warc(text: &[u8]) -> Result<u64, NotATime>
    ensures read { IfOk result (λ date. InRange date × (text.now ≡ warc_date date)) }
    ensures refused { OnErr result ((date : ℕ) → InRange date → ¬ (text.now ≡ warc_date date)) }
    ensures reads_back { (date : ℕ) → InRange date → text.now ≡ warc_date date → result
        ≡ Ok date }
{
    let Some(digits) = digits_in(text) else {
        return Err(NotATime);
    };
    let civil = Civil::of_digits(&digits)?;
    let date = civil.date()?;
    let written = WarcTime::of(civil);
    if written.as_slice() != text {
        return Err(NotATime);
    }
    Ok(date)
}

/// The digits of a text as long as a WARC-Date, where its digits stand.
fn digits_in(text: &[u8]) -> Option<[u8; 17]>
    ensures { MatchOption result ((c : Civil) → ¬ (text.now ≡ warc_of c))
        (λ digits. (c : Civil) → text.now ≡ warc_of c → digits ≡ digits_of c) }
{
    match text.len() {
        20 => Some(digits_with(text, [b'0', b'0', b'0'])),
        24 => Some(digits_with(text, [text[20], text[21], text[22]])),
        _ => None,
    }
}

/// The digits that stand in `YYYY-MM-DDThh:mm:ss` at the front of the text, and behind them those
/// of the fraction.
fn digits_with(text: &[u8], fraction: [u8; 3]) -> [u8; 17]
    requires { 20 ≤ length text.now }
    ensures { (c : Civil) → text.now ≡ warc_of c → result ≡ take 14 (digits_of c) ++ fraction }
{
    let [f0, f1, f2] = fraction;
    [
        text[0], text[1], text[2], text[3], text[5], text[6], text[8], text[9], text[11], text[12],
        text[14], text[15], text[17], text[18], f0, f1, f2,
    ]
}
