//! Numbers and digests, as the strings of a line's members tell them.
ghost use Rattle.std.specs.Prelude.{◌≡◌, ◌<◌, ◌≤◌, ◌^◌, ℕ, List, true, decimal, Some, IfSome, IfNone};
ghost use Rattle.std.specs.Char.{is_ascii_digit};
ghost use Rattle.std.specs.List.{list_all};
ghost use Rattle.std.specs.Str.Parse.{digits_value};
ghost use Rattle.digest32.specs.Base32.{base32, IsDigest};
ghost use Rattle.json.specs.Print.{escape};
ghost use Rattle.cdxj_line.specs.steps.Numerals as spec;

use capture::Digest;
use digest32::read_base32;

/// The number that stands so between the quotes of a string, in digits without a zero before them.
pub(crate) fn number_of(digits: &[u8]) -> Option<u64>
    ensures some { IfSome result (λ number. digits.now ≡ escape (decimal number)) }
    ensures found { (number : ℕ) → number < 2 ^ 64 → digits.now ≡ escape (decimal number) → result ≡ Some number }
{
    if !is_numeral(digits) {
        return None;
    }
    value_of(digits)
}

/// Whether the text is digits, of which the first is a zero only where it stands alone.
fn is_numeral(text: &[u8]) -> bool
    ensures { result ≡ spec.is_numeral text.now }
{
    !text.is_empty() && (text.len() == 1 || text[0] != b'0') && has_digits_alone(text)
}

/// Whether each byte is a digit.
fn has_digits_alone(text: &[u8]) -> bool
    ensures { result ≡ list_all is_ascii_digit text.now }
{
    text.iter().all(|b| b.is_ascii_digit())
}

/// The number that the digits write, where it is one of 64 bits.
fn value_of(digits: &[u8]) -> Option<u64>
    requires { list_all is_ascii_digit digits.now ≡ true }
    ensures fits { IfSome result (λ number. number < 2 ^ 64) }
    ensures value { IfSome result (λ number. number ≡ digits_value 10 digits.now) }
    ensures none { IfNone result (2 ^ 64 ≤ digits_value 10 digits.now) }
{
    let mut value: u64 = 0;
    for digit in digits {
        match value.checked_mul(10) {
            None => return None,
            Some(tens) => match tens.checked_add(u64::from(*digit - b'0')) {
                None => return None,
                Some(next) => value = next,
            },
        }
    }
    Some(value)
}

/// The number, where it is one of 32 bits.
pub(crate) fn small_number_of(digits: &[u8]) -> Option<u32>
    ensures some { IfSome result (λ number. digits.now ≡ escape (decimal number)) }
    ensures found { (number : ℕ) → number < 2 ^ 32 → digits.now ≡ escape (decimal number) → result ≡ Some number }
{
    let number = number_of(digits)?;
    if number > 4_294_967_295 {
        return None;
    }
    Some(number as u32)
}

/// The number, where it is one of three digits.
pub(crate) fn status_of(digits: &[u8]) -> Option<u16>
    ensures some { IfSome result (λ number. digits.now ≡ escape (decimal number)) }
    ensures from { IfSome result (λ number. 100 ≤ number) }
    ensures to { IfSome result (λ number. number ≤ 999) }
    ensures found { (number : ℕ) → 100 ≤ number → number ≤ 999 → digits.now ≡ escape (decimal number) → result ≡ Some number }
{
    let number = number_of(digits)?;
    if number < 100 {
        return None;
    }
    if number > 999 {
        return None;
    }
    Some(number as u16)
}

/// The digest whose base32 text stands so between the quotes of a string.
pub(crate) fn digest_of(text: &[u8]) -> Option<Digest>
    ensures some { IfSome result (λ digest. text.now ≡ escape (base32 digest)) }
    ensures found { (digest : List ℕ) → IsDigest digest → text.now ≡ escape (base32 digest) → result ≡ Some digest }
{
    let digest = read_base32(text)?;
    Some(digest)
}
