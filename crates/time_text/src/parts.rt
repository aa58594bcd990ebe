//! Numbers of two and of three digits, both ways.

ghost use Rattle.std.specs.Prelude.{◌≡◌, ◌<◌, ℕ, [], ◌∷◌, MatchResult};
ghost use Rattle.time_text.specs.Texts as Texts;

use crate::NotATime;

/// The two digits of a number.
pub fn two_digits(number: u8) -> [u8; 2]
    requires { number < 100 }
    ensures { result ≡ Texts.two_digits number }
{
    [b'0' + number / 10, b'0' + number % 10]
}

/// The three digits of a number.
pub fn three_digits(number: u16) -> [u8; 3]
    requires { number < 1000 }
    ensures { result ≡ Texts.three_digits number }
{
    let [tens, ones] = two_digits((number % 100) as u8);
    [b'0' + (number / 100) as u8, tens, ones]
}

/// The number that two digits show.
pub fn small_number_of(tens: u8, ones: u8) -> Result<u8, NotATime>
    ensures { MatchResult result (λ n. (n < 100) × (tens ∷ ones ∷ [] ≡ Texts.two_digits n))
        (λ _. (n : ℕ) → n < 100 → ¬ (tens ∷ ones ∷ [] ≡ Texts.two_digits n)) }
{
    if !tens.is_ascii_digit() || !ones.is_ascii_digit() {
        return Err(NotATime);
    }
    Ok((tens - b'0') * 10 + (ones - b'0'))
}

/// The number that three digits show.
pub fn number_of(hundreds: u8, tens: u8, ones: u8) -> Result<u16, NotATime>
    ensures { MatchResult result
        (λ n. (n < 1000) × (hundreds ∷ tens ∷ ones ∷ [] ≡ Texts.three_digits n))
        (λ _. (n : ℕ) → n < 1000 → ¬ (hundreds ∷ tens ∷ ones ∷ [] ≡ Texts.three_digits n)) }
{
    if !hundreds.is_ascii_digit() {
        return Err(NotATime);
    }
    let rest = small_number_of(tens, ones)?;
    Ok((hundreds - b'0') as u16 * 100 + rest as u16)
}
