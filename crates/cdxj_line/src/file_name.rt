//! The name of a volume's file, as a line has it.
ghost use Rattle.std.specs.Prelude.{◌≡◌, ℕ, ◌++◌, ◌-◌, ◌^◌, ◌<◌, replicate, Some, IfSome, OnOk};
ghost use Rattle.json.specs.Print.{escape, quoted};
ghost use Rattle.cdxj_line.specs.Lines.{file_name, six_digits};

use crate::cut::{before, strip};
use capture::{Memory, put_all};
use itoa::Buffer;

/// Puts the name of a volume's file as a JSON string: `vol-`, its number in six digits or more, and `.warc`.
pub(crate) fn put_file_name(out: &mut Vec<u8>, volume: u32) -> Result<(), Memory>
    ensures { OnOk result (out.new.items ≡ out.old.items ++ quoted (file_name volume)) }
{
    let mut buffer = Buffer::new();
    let digits = buffer.format(volume).as_bytes();
    put_all(out, b"\"vol-")?;
    put_all(out, zeros_before(digits.len()))?;
    put_all(out, digits)?;
    put_all(out, b".warc\"")
}

/// Six zeros.
const ZEROS: &[u8; 6] = b"000000";

/// The zeros that stand before so many digits.
fn zeros_before(digits: usize) -> &'static [u8]
    ensures { result.now ≡ replicate (6 - digits) 48 }
{
    let (zeros, _) = ZEROS.split_at(6usize.saturating_sub(digits));
    zeros
}

/// The volume whose file's name stands so between the quotes of a string.
pub(crate) fn volume_of(name: &[u8]) -> Option<u32>
    ensures some { IfSome result (λ volume. name.now ≡ escape (file_name volume)) }
    ensures found { (volume : ℕ) → volume < 2 ^ 32 → name.now ≡ escape (file_name volume) → result ≡ Some volume }
{
    let number = strip(name, b"vol-")?;
    let digits = before(number, b".warc")?;
    let volume = six_digits_of(digits)?;
    Some(volume)
}

/// The number that is written with six digits or more.
fn six_digits_of(digits: &[u8]) -> Option<u32>
    ensures some { IfSome result (λ number. (number < 2 ^ 32) × (digits.now ≡ six_digits number)) }
    ensures found { (number : ℕ) → number < 2 ^ 32 → digits.now ≡ six_digits number → result ≡ Some number }
{
    let Ok(text) = std::str::from_utf8(digits) else {
        return None;
    };
    let Ok(number) = text.parse::<u32>() else {
        return None;
    };
    // A sign and more zeros are read too.
    let mut buffer = Buffer::new();
    let written = buffer.format(number).as_bytes();
    let rest = strip(digits, zeros_before(written.len()))?;
    if rest == written { Some(number) } else { None }
}
