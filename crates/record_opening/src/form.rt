//! Values of a fixed length, of which fewer bytes have come.
ghost use Rattle.std.specs.Prelude.{◌≡◌, ◌<◌, length};
ghost use Rattle.record_opening.specs.Forms as spec;
ghost use Rattle.record_opening.specs.Stops.{IsFormStop};
ghost use Rattle.record_opening.specs.Forms.{fits, is_between};

use crate::stop::Stop;

/// The form of a date with a fraction of a second (ISO 8601). Of a date without one all but the last byte begins so too.
pub const DATE_FORM: &[u8] = b"9999-99-99T99:99:99.999Z";

/// The form of a UUID (RFC 9562, section 4).
pub const UUID_FORM: &[u8] = b"ffffffff-ffff-ffff-ffff-ffffffffffff";

/// The form of a digest of twenty bytes in base32 (RFC 4648, section 6).
pub const DIGEST_FORM: &[u8] = b"77777777777777777777777777777777";

/// Why no value of a form stands where fewer bytes have come: it may go on, or none begins so. A form has `9` for a decimal
/// digit, `f` for a hexadecimal one in lower case, `7` for one of base32, and each other byte for itself.
pub fn open_form(bytes: &[u8], form: &[u8]) -> Stop
    requires { length bytes.now < length form.now }
    ensures { IsFormStop form.now bytes.now result }
{
    for (place, byte) in bytes.iter().enumerate() {
        if !fits(form[place], *byte) {
            return Stop::Wrong;
        }
    }
    Stop::Open
}

/// Whether a byte may stand where a form has this one.
fn fits(form: u8, byte: u8) -> bool
    ensures { result ≡ spec.fits form byte }
{
    match form {
        b'9' => is_decimal(byte),
        b'f' => is_decimal(byte) || is_between(byte, b'a', b'f'),
        b'7' => is_between(byte, b'A', b'Z') || is_between(byte, b'2', b'7'),
        _ => byte == form,
    }
}

/// Whether a byte is a decimal digit.
fn is_decimal(byte: u8) -> bool
    ensures { result ≡ spec.is_decimal byte }
{
    is_between(byte, b'0', b'9')
}

/// Whether a byte is one of a range.
fn is_between(byte: u8, first: u8, last: u8) -> bool
    ensures { result ≡ spec.is_between byte first last }
{
    first <= byte && byte <= last
}
