//! What calendar and clock show in UTC, and at which date.
//!
//! The calendar is jiff's, by its day numbers. Its `Timestamp` isn't used, since it ends a day
//! before the year 10000.

ghost use Rattle.std.specs.Prelude.{◌≡◌, ◌≤◌, ◌/◌, ℕ, IfOk, MatchResult};
ghost use Rattle.std.specs.Result.{OkIff};

use crate::parts::{number_of, small_number_of, three_digits, two_digits};
use crate::{NotATime, Range};
use jiff_core::civil::{Date, Time};

/// A day of the calendar and a time of day, in range or not.
#[derive(Clone, Copy)]
pub struct Civil {
    pub year: u16,
    pub month: u8,
    pub day: u8,
    pub hour: u8,
    pub minute: u8,
    pub second: u8,
    pub millisecond: u16,
}

impl Civil {
    ghost use Rattle.time_text.specs.Calendar.{civil_at, HasDigits};
    ghost use Rattle.time_text.specs.Texts.{InRange, digits_of};
    ghost use Rattle.time_text.specs.declared.civil.Civil.{Civil};
    ghost use Rattle.httpdate.specs.Calendar.{seconds_from_civil};

    /// What calendar and clock show at the date.
    pub fn at(date: u64) -> Result<Civil, Range>
        ensures value { OkIff result (InRange date) (civil_at date) }
        ensures digits { IfOk result HasDigits }
        // The same calendar, by the days of whole years and months.
        ensures counted { IfOk result
            (λ c. seconds_from_civil c.year c.month c.day c.hour c.minute c.second
            ≡ date / 1000) }
    {
        let Ok(day) = Date::from_unix_epoch_day((date / 86_400_000) as i64) else {
            return Err(Range);
        };
        let time = Time::from_second((date % 86_400_000 / 1000) as u32, 0);
        Ok(Civil {
            year: day.year as u16,
            month: day.month,
            day: day.day,
            hour: time.hour,
            minute: time.minute,
            second: time.second,
            millisecond: (date % 1000) as u16,
        })
    }

    /// The date at which calendar and clock show this.
    pub fn date(self) -> Result<u64, NotATime>
        requires { HasDigits self }
        ensures { MatchResult result (λ date. InRange date × (civil_at date ≡ self))
            (λ _. (date : ℕ) → InRange date → ¬ (civil_at date ≡ self)) }
    {
        let Ok(day) = Date::new(self.year as i16, self.month as i8, self.day as i8) else {
            return Err(NotATime);
        };
        if self.hour > 23 || self.minute > 59 || self.second > 59 {
            return Err(NotATime);
        }
        let days = day.to_unix_epoch_day();
        if days < 0 {
            return Err(NotATime);
        }
        let seconds = self.hour as u64 * 3600 + self.minute as u64 * 60 + self.second as u64;
        Ok(days as u64 * 86_400_000 + seconds * 1000 + self.millisecond as u64)
    }

    /// Its digits, from the year to the millisecond.
    pub fn digits(self) -> [u8; 17]
        requires { HasDigits self }
        ensures { result ≡ digits_of self }
    {
        let [y0, y1] = two_digits((self.year / 100) as u8);
        let [y2, y3] = two_digits((self.year % 100) as u8);
        let [m0, m1] = two_digits(self.month);
        let [d0, d1] = two_digits(self.day);
        let [h0, h1] = two_digits(self.hour);
        let [n0, n1] = two_digits(self.minute);
        let [s0, s1] = two_digits(self.second);
        let [f0, f1, f2] = three_digits(self.millisecond);
        [
            y0, y1, y2, y3, m0, m1, d0, d1, h0, h1, n0, n1, s0, s1, f0, f1, f2,
        ]
    }

    /// What has these digits.
    pub fn of_digits(digits: &[u8; 17]) -> Result<Civil, NotATime>
        ensures { MatchResult result (λ c. HasDigits c × (digits.now ≡ digits_of c))
            (λ _. (c : Civil) → HasDigits c → ¬ (digits.now ≡ digits_of c)) }
    {
        let [
            y0,
            y1,
            y2,
            y3,
            m0,
            m1,
            d0,
            d1,
            h0,
            h1,
            n0,
            n1,
            s0,
            s1,
            f0,
            f1,
            f2,
        ] = *digits;
        let century = small_number_of(y0, y1)?;
        let year = small_number_of(y2, y3)?;
        Ok(Civil {
            year: century as u16 * 100 + year as u16,
            month: small_number_of(m0, m1)?,
            day: small_number_of(d0, d1)?,
            hour: small_number_of(h0, h1)?,
            minute: small_number_of(n0, n1)?,
            second: small_number_of(s0, s1)?,
            millisecond: number_of(f0, f1, f2)?,
        })
    }
}
