//! Base32 of a digest. Five bytes are eight characters, so 20 bytes are four such groups.

ghost use Rattle.std.specs.Prelude.{◌≡◌, ◌<◌, ◌↔◌, List, ℕ, length, All, Contains, Some, IsSome, IfSome, MatchOption};
ghost use Rattle.digest32.specs.Base32.{alphabet, character, base32, IsDigest, IsDigestText};

const ALPHABET: &[u8; 32] = b"ABCDEFGHIJKLMNOPQRSTUVWXYZ234567";

/// The base32 text of a digest.
pub fn base32_of(digest: &[u8; 20]) -> [u8; 32]
    ensures { result ≡ base32 digest.now }
{
    let mut text = [0; 32];
    'groups: for i in 0..4 {
        let characters = characters_of(&digest[5 * i..5 * i + 5]);
        text[8 * i..8 * i + 8].copy_from_slice(&characters);
    }
    text
}

/// The digest that a text is the base32 of, and `None` where it isn't 32 characters of the alphabet.
pub fn read_base32(text: &[u8]) -> Option<[u8; 20]>
    ensures some { IsSome result ↔ IsDigestText text.now }
    ensures read { IfSome result (λ digest. text.now ≡ base32 digest) }
    ensures reads_back { (digest : List ℕ) → IsDigest digest → text.now ≡ base32 digest → result
        ≡ Some digest }
{
    if text.len() != 32 {
        return None;
    }
    let mut digest = [0; 20];
    'groups: for i in 0..4 {
        let bytes = bytes_of(&text[8 * i..8 * i + 8])?;
        digest[5 * i..5 * i + 5].copy_from_slice(&bytes);
    }
    Some(digest)
}

/// The eight characters of five bytes.
fn characters_of(bytes: &[u8]) -> [u8; 8]
    requires { length bytes.now ≡ 5 }
    ensures { result ≡ base32 bytes.now }
{
    let (a, b, c, d, e) = (bytes[0], bytes[1], bytes[2], bytes[3], bytes[4]);
    [
        character_of(a / 8),
        character_of(a % 8 * 4 + b / 64),
        character_of(b / 2 % 32),
        character_of(b % 2 * 16 + c / 16),
        character_of(c % 16 * 2 + d / 128),
        character_of(d / 4 % 32),
        character_of(d % 4 * 8 + e / 32),
        character_of(e % 32),
    ]
}

/// The five bytes of eight characters.
fn bytes_of(text: &[u8]) -> Option<[u8; 5]>
    requires { length text.now ≡ 8 }
    ensures { MatchOption result (¬ (All (Contains alphabet) text.now))
        (λ bytes. All (λ byte. byte < 256) bytes × (text.now ≡ base32 bytes)) }
{
    let a = number_of(text[0])?;
    let b = number_of(text[1])?;
    let c = number_of(text[2])?;
    let d = number_of(text[3])?;
    let e = number_of(text[4])?;
    let f = number_of(text[5])?;
    let g = number_of(text[6])?;
    let h = number_of(text[7])?;
    Some([
        a * 8 + b / 4,
        b % 4 * 64 + c * 2 + d / 16,
        d % 16 * 16 + e / 2,
        e % 2 * 128 + f * 4 + g / 8,
        g % 8 * 32 + h,
    ])
}

/// The character of five bits.
#[tactic(auto, unfolding(crate::specs::Base32::character))]
fn character_of(number: u8) -> u8
    requires { number < 32 }
    ensures { result ≡ character number }
{
    ALPHABET[number as usize]
}

/// The five bits of a character, if it is one of the alphabet.
fn number_of(byte: u8) -> Option<u8>
    ensures { MatchOption result (¬ (Contains alphabet byte))
        (λ number. (number < 32) × (byte ≡ character number)) }
{
    match byte {
        b'A'..=b'Z' => Some(byte - b'A'),
        b'2'..=b'7' => Some(byte - b'2' + 26),
        _ => None,
    }
}
