//! Numbers of any size, as digits write them.
ghost use Rattle.std.specs.Prelude.{◌≡◌, ◌==◌, ◌^◌, ◌≤◌, true, false, length, IfSome, IfNone};
ghost use Rattle.std.specs.Char.{is_ascii_digit};
ghost use Rattle.std.specs.List.{list_all, prefix_len};
ghost use Rattle.std.specs.Str.Parse.{digits_value};
ghost use Rattle.httparse.specs.Ascii.{digit_zero};
ghost use Rattle.capture.specs.Framing.{is_number};

use std::marker::Model;

/// A number that digits write, of any size. A contract sees the number.
#[derive(Drop)]
pub struct Number<'t> {
    /// Its digits, without the zeros at their front.
    digits: &'t [u8],
}

impl<'t> Model for Number<'t> {
    ghost use Rattle.std.specs.Prelude.{ℕ};
    ghost use Rattle.std.specs.Str.Parse.{digits_value};

    ghost Value = { ℕ };

    ghost use Rattle.message_body.specs.steps.Numerals.{IsNumeral};

    ghost view = { λ n. digits_value 10 n.digits.now };

    ghost invariant = { λ n. IsNumeral n.digits.now };
}

impl<'t> Number<'t> {
    /// The number that the text is, where it is one digit or more.
    pub fn read(text: &'t [u8]) -> Option<Number<'t>>
        ensures number { IfSome result (λ _. is_number text.now ≡ true) }
        ensures value { IfSome result (λ n. n ≡ digits_value 10 text.now) }
        ensures none { IfNone result (is_number text.now ≡ false) }
    {
        if !is_digits(text) {
            return None;
        }
        let (_, digits) = text.split_at(leading_zeros(text));
        Some(Number { digits })
    }

    /// Whether both are the same number.
    pub fn is_same(&self, other: &Number) -> bool
        ensures { result ≡ (self.now == other.now) }
    {
        self.digits == other.digits
    }

    /// The number, where it is below 2 to the 64th.
    pub fn to_u64(&self) -> Option<u64>
        ensures value { IfSome result (λ n. n ≡ self.now) }
        ensures none { IfNone result (2 ^ 64 ≤ self.now) }
    {
        value_of(self.digits)
    }
}

/// Whether the text is one digit or more.
fn is_digits(text: &[u8]) -> bool
    ensures { result ≡ is_number text.now }
{
    if text.is_empty() {
        return false;
    }
    has_digits_alone(text)
}

/// Whether each byte is a digit, as it is in an empty text.
fn has_digits_alone(text: &[u8]) -> bool
    ensures { result ≡ list_all is_ascii_digit text.now }
{
    text.iter().all(|b| b.is_ascii_digit())
}

/// How many zeros stand at the front.
fn leading_zeros(text: &[u8]) -> usize
    ensures value { result ≡ prefix_len (λ b. b == digit_zero) text.now }
    ensures within { result ≤ length text.now }
{
    text.iter().take_while(|&&b| b == b'0').count()
}

/// The number that the digits write, where it is below 2 to the 64th.
fn value_of(digits: &[u8]) -> Option<u64>
    requires { list_all is_ascii_digit digits.now ≡ true }
    ensures value { IfSome result (λ n. n ≡ digits_value 10 digits.now) }
    ensures none { IfNone result (2 ^ 64 ≤ digits_value 10 digits.now) }
{
    let mut value: u64 = 0;
    for digit in digits {
        match value.checked_mul(10) {
            None => return None,
            Some(tens) => match tens.checked_add(u64::from(*digit - b'0')) {
                None => return None,
                Some(next) => value = next,
            },
        }
    }
    Some(value)
}
