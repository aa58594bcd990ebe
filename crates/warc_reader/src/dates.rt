//! A record's date, as other tools write it.
ghost use Rattle.std.specs.Prelude.{◌≡◌, ◌<◌, ◌++◌, ◌-◌, ◌*◌, ℕ, List, true, codes, length, IfSome, IfNone};
ghost use Rattle.std.specs.Char.{is_ascii_digit};
ghost use Rattle.std.specs.List.{list_all};
ghost use Rattle.warc_reader.specs.Dates.{IsDateText, IsFraction, IsSecond, digit_at, milliseconds, print_fraction};

use time_text::read_warc;

/// The bytes of `YYYY-MM-DDThh:mm:ss`.
const SECOND_LEN: usize = 19;

/// The mark of UTC.
const UTC: &[u8] = b"Z";

/// The most digits of a fraction.
const FRACTION_LIMIT: usize = 9;

/// The date of a WARC-Date (ISO 28500:2017, 5.4), with a fraction of none or one to nine digits, of which those finer than a
/// millisecond are dropped. `None`: the text is no date of the years 1970 to 9999.
pub fn read_date(text: &[u8]) -> Option<u64>
    ensures some { IfSome result (IsDateText text.now) }
    ensures none { IfNone result ((date : ℕ) → ¬ (IsDateText text.now date)) }
{
    if text.len() < SECOND_LEN {
        return None;
    }
    let (front, behind) = text.split_at(SECOND_LEN);
    match read_second(front) {
        Some(second) => match fraction_digits(behind) {
            Some(digits) => Some(second + whole_milliseconds(digits)),
            None => None,
        },
        None => None,
    }
}

/// The date of a whole second, whose text lacks its `Z`.
fn read_second(front: &[u8]) -> Option<u64>
    requires { length front.now ≡ 19 }
    ensures some { IfSome result (IsSecond front.now) }
    ensures none { IfNone result ((second : ℕ) → ¬ (IsSecond front.now second)) }
{
    let mut text = [b'Z'; SECOND_LEN + 1];
    text[..SECOND_LEN].copy_from_slice(front);
    match read_warc(&text) {
        Ok(second) => Some(second),
        Err(_) => None,
    }
}

/// The digits of the fraction that stands before the `Z`.
fn fraction_digits(behind: &[u8]) -> Option<&[u8]>
    ensures fraction { IfSome result (λ digits. IsFraction digits.now) }
    ensures some { IfSome result (λ digits. behind.now ≡ print_fraction digits.now ++ codes "Z") }
    ensures none { IfNone result ((digits : List ℕ) → IsFraction digits → ¬ (behind.now ≡ print_fraction digits ++ codes "Z")) }
{
    if behind.is_empty() {
        return None;
    }
    let (fraction, last) = behind.split_at(behind.len() - 1);
    if last == UTC {
        return digits_behind_point(fraction);
    }
    None
}

/// The digits of a fraction, which has a point before them where there are any.
fn digits_behind_point(fraction: &[u8]) -> Option<&[u8]>
    ensures fraction { IfSome result (λ digits. IsFraction digits.now) }
    ensures some { IfSome result (λ digits. fraction.now ≡ print_fraction digits.now) }
    ensures none { IfNone result ((digits : List ℕ) → IsFraction digits → ¬ (fraction.now ≡ print_fraction digits)) }
{
    match fraction.split_first() {
        None => Some(fraction),
        Some((point, digits)) => {
            if *point != b'.' {
                return None;
            }
            if digits.is_empty() {
                return None;
            }
            if digits.len() > FRACTION_LIMIT {
                return None;
            }
            if are_digits(digits) {
                Some(digits)
            } else {
                None
            }
        }
    }
}

/// Whether each byte is a digit, as it is in an empty text.
fn are_digits(text: &[u8]) -> bool
    ensures { result ≡ list_all is_ascii_digit text.now }
{
    text.iter().all(|b| b.is_ascii_digit())
}

/// The whole milliseconds of a fraction.
fn whole_milliseconds(digits: &[u8]) -> u64
    requires { list_all is_ascii_digit digits.now ≡ true }
    ensures value { result ≡ milliseconds digits.now }
    ensures below { result < 1000 }
{
    digit_number(digits, 0) * 100 + digit_number(digits, 1) * 10 + digit_number(digits, 2)
}

/// The number of the digit at that place, 0 where there is none.
fn digit_number(digits: &[u8], place: usize) -> u64
    requires { list_all is_ascii_digit digits.now ≡ true }
    ensures value { result ≡ digit_at digits.now place }
    ensures below { result < 10 }
{
    match digits.get(place) {
        Some(digit) => u64::from(*digit - b'0'),
        None => 0,
    }
}
