//! The fields of a record that an import reads.
ghost use Rattle.std.specs.Prelude.{◌≡◌, ◌≤◌, ◌==◌, not, map, length, option_copied};
ghost use Rattle.std.specs.List.{prefix_len};
ghost use Rattle.httparse.specs.Ascii.{semicolon};
ghost use Rattle.http_head.specs.Heads.{named_value};
ghost use Rattle.warc_reader.specs.Fields as spec;

use crate::kind::Kind;
use capture::trim_ows;
use http_head::{Field, first_value};

/// The types of records, in exact case (ISO 28500:2017, section 6).
const RESPONSE: &[u8] = b"response";

const REVISIT: &[u8] = b"revisit";

const REQUEST: &[u8] = b"request";

/// The media type of a block that holds a message of HTTP.
const HTTP: &[u8] = b"application/http";

/// The type of a record (ISO 28500:2017, 5.5).
pub fn kind_of(fields: &[Field]) -> Kind
    ensures { result ≡ spec.kind_of (map named_value fields.now) }
{
    match first_value(fields, b"warc-type") {
        Some(value) => kind_named(value),
        None => Kind::Other,
    }
}

/// The kind of a record by the value of its WARC-Type, in exact case.
fn kind_named(value: &[u8]) -> Kind
    ensures { result ≡ spec.kind_named value.now }
{
    if value == RESPONSE {
        return Kind::Response;
    }
    if value == REVISIT {
        return Kind::Revisit;
    }
    if value == REQUEST {
        return Kind::Request;
    }
    Kind::Other
}

/// Whether the block is of type `application/http`, in exact case (ISO 28500:2017, 5.6).
pub fn has_http_type(fields: &[Field]) -> bool
    ensures { result ≡ spec.has_http_type (map named_value fields.now) }
{
    match first_value(fields, b"content-type") {
        Some(value) => is_http_type(value),
        None => false,
    }
}

/// Whether the value up to its first `;`, without the white space around it, is `application/http`.
fn is_http_type(value: &[u8]) -> bool
    ensures { result ≡ spec.is_http_type value.now }
{
    let (media_type, _) = value.split_at(media_type_len(value));
    trim_ows(media_type) == HTTP
}

/// The length up to the first `;`.
fn media_type_len(text: &[u8]) -> usize
    ensures value { result ≡ prefix_len (λ b. not (b == semicolon)) text.now }
    ensures within { result ≤ length text.now }
{
    text.iter().take_while(|&&b| b != b';').count()
}

/// The target that the record names (ISO 28500:2017, 5.12), without the one pair of angle brackets around it.
pub fn target_of(fields: &[Field]) -> Option<&[u8]>
    ensures { option_copied result ≡ spec.target_of (map named_value fields.now) }
{
    match first_value(fields, b"warc-target-uri") {
        Some(value) => Some(without_brackets(value)),
        None => None,
    }
}

/// The text without the one pair of angle brackets around it, where one is there.
fn without_brackets(text: &[u8]) -> &[u8]
    ensures { result.now ≡ spec.without_brackets text.now }
{
    match text {
        [b'<', uri @ .., b'>'] => uri,
        _ => text,
    }
}

/// Whether the record says that its block is a segment, the first one too (ISO 28500:2017, section 7).
pub fn is_segmented(fields: &[Field]) -> bool
    ensures { result ≡ spec.is_segmented (map named_value fields.now) }
{
    first_value(fields, b"warc-segment-number").is_some()
}

/// Whether the record says that its block was truncated (ISO 28500:2017, 5.13).
pub fn is_truncated(fields: &[Field]) -> bool
    ensures { result ≡ spec.is_truncated (map named_value fields.now) }
{
    first_value(fields, b"warc-truncated").is_some()
}
