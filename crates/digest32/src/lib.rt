//! The digest of a payload, and its text.
//!
//! A digest is SHA-1 (FIPS 180-4), and its text is base32 (RFC 4648, section 6): 32 characters of
//! `A` to `Z` and `2` to `7`, in which 160 bits need no padding. Nothing here takes memory.
#![tactic(auto)]

ghost use Rattle.std.specs.Prelude.{◌≡◌};
ghost use Rattle.sha1.specs.Sha1.{sha1};

mod base32;

pub use base32::{base32_of, read_base32};
use sha1::Sha1;

/// The SHA-1 digest of a payload.
pub fn payload_digest(payload: &[u8]) -> [u8; 20]
    ensures { result ≡ sha1 payload.now }
{
    Sha1::digest(payload)
}
