//! Numbers of captures in addresses.
ghost use Rattle.std.specs.Prelude.{ℕ, MatchOption};
ghost use Rattle.replay_url.specs.Forms.{IsNumber};

use itoa::Buffer;

/// The number that the text is in decimal, without a sign or leading zeros.
pub fn read_number(text: &[u8]) -> Option<u32>
    ensures { MatchOption result ((number : ℕ) → IsNumber text.now number → ⊥) (λ number. IsNumber text.now number) }
{
    let Ok(text) = std::str::from_utf8(text) else {
        return None;
    };
    let Ok(number) = text.parse::<u32>() else {
        return None;
    };
    let mut buffer = Buffer::new();
    if buffer.format(number) == text {
        Some(number)
    } else {
        None
    }
}
