//! The length of a record's block, and the fields that a record must have once.
ghost use Rattle.std.specs.Prelude.{◌≡◌, ◌≢◌, ◌≤◌, ℕ, true, [], ◌∷◌, map, length, IfSome, IfNone};
ghost use Rattle.std.specs.Str.Parse.{digits_value};
ghost use Rattle.capture.specs.Fields.{lowered, values_of};
ghost use Rattle.capture.specs.Framing.{is_number};
ghost use Rattle.http_head.specs.Heads.{named_value};
ghost use Rattle.warc_reader.specs.Records.{TellsBlock};
ghost use Rattle.warc_reader.specs.declared.record.TheConstants.{BLOCK_LIMIT as BLOCK};

use crate::record::BLOCK_LIMIT;
use http_head::{Field, first_value};
use message_body::Number;

/// The block's length in bytes, where there are one field WARC-Type and one field Content-Length (ISO 28500:2017, 5.3 and
/// 5.5), and the latter is a number within the limit.
pub fn block_len(fields: &[Field]) -> Option<usize>
    ensures some { IfSome result (TellsBlock (map named_value fields.now)) }
    ensures none { IfNone result ((n : ℕ) → ¬ (TellsBlock (map named_value fields.now) n)) }
{
    match only_value(fields, b"warc-type") {
        Some(_) => match only_value(fields, b"content-length") {
            Some(value) => number_within(value),
            None => None,
        },
        None => None,
    }
}

/// The value of the field of that name, where there is one such field.
fn only_value<'a>(fields: &'a [Field], name: &[u8]) -> Option<&'a [u8]>
    ensures some { IfSome result (λ value. values_of (lowered name.now) (map named_value fields.now) ≡ value.now ∷ []) }
    ensures none { IfNone result (length (values_of (lowered name.now) (map named_value fields.now)) ≢ 1) }
{
    if count_named(fields, name) != 1 {
        return None;
    }
    first_value(fields, name)
}

/// How many fields have that name.
fn count_named(fields: &[Field], name: &[u8]) -> usize
    ensures { result ≡ length (values_of (lowered name.now) (map named_value fields.now)) }
{
    let mut count = 0;
    for field in fields {
        if field.has_name(name) {
            count += 1;
        }
    }
    count
}

/// The number that the text is, within the limit of a block.
fn number_within(text: &[u8]) -> Option<usize>
    ensures number { IfSome result (λ _. is_number text.now ≡ true) }
    ensures value { IfSome result (λ n. n ≡ digits_value 10 text.now) }
    ensures within { IfSome result (λ n. n ≤ BLOCK) }
    ensures none { IfNone result (is_number text.now ≡ true → ¬ (digits_value 10 text.now ≤ BLOCK)) }
{
    match Number::read(text) {
        Some(number) => match number.to_u64() {
            Some(n) => {
                if n > BLOCK_LIMIT {
                    return None;
                }
                Some(n as usize)
            }
            None => None,
        },
        None => None,
    }
}
