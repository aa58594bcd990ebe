//! Field lines by their names, with ASCII case ignored (RFC 9110, section 5.1).
ghost use Rattle.std.specs.Prelude.{◌≡◌, length, map, slice_get, option_copied, All};
ghost use Rattle.httparse.specs.Spans.{IsHeaderWithin, header_bytes};
ghost use Rattle.capture.specs.Fields.{has_field, is_named, lowered, values_of};
ghost use Rattle.http_head.specs.Heads as spec;
ghost use Rattle.http_head.specs.Heads.{named_value};

use crate::head::Field;
use httparse::spans::HeaderSpan;

impl Field {
    /// Whether the field has this name, with ASCII case ignored.
    pub fn has_name(&self, name: &[u8]) -> bool
        ensures { result ≡ is_named (lowered name.now) (named_value self.now) }
    {
        self.name.as_slice().eq_ignore_ascii_case(name)
    }
}

/// The value of the first field that has this name, with ASCII case ignored.
pub fn first_value<'a>(fields: &'a [Field], name: &[u8]) -> Option<&'a [u8]>
    ensures { option_copied result ≡ slice_get (values_of (lowered name.now) (map named_value fields.now)) 0 }
{
    for field in fields {
        if field.has_name(name) {
            return Some(field.value.as_slice());
        }
    }
    None
}

/// Whether the header's name in the text is this, with ASCII case ignored.
fn is_header_named(text: &[u8], header: HeaderSpan, name: &[u8]) -> bool
    requires { IsHeaderWithin (length text.now) header }
    ensures { result ≡ is_named (lowered name.now) (header_bytes text.now header) }
{
    header.name.of(text).eq_ignore_ascii_case(name)
}

/// Whether some header in the text has this name, with ASCII case ignored.
fn has_header(text: &[u8], headers: &[HeaderSpan], name: &[u8]) -> bool
    requires { All (IsHeaderWithin (length text.now)) headers.now }
    ensures { result ≡ has_field (lowered name.now) (map (header_bytes text.now) headers.now) }
{
    for header in headers {
        if is_header_named(text, *header, name) {
            return true;
        }
    }
    false
}

/// Whether some header in the text tells a length of the body (RFC 9112, section 6.3).
pub fn has_framing(text: &[u8], headers: &[HeaderSpan]) -> bool
    requires { All (IsHeaderWithin (length text.now)) headers.now }
    ensures { result ≡ spec.has_framing (map (header_bytes text.now) headers.now) }
{
    if has_header(text, headers, b"transfer-encoding") {
        return true;
    }
    has_header(text, headers, b"content-length")
}
