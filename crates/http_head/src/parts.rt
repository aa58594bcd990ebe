//! Copies the parts of a head into memory of their own.
ghost use Rattle.std.specs.Prelude.{◌≡◌, ◌≤◌, length, map, All, IsAscii, IfOk};
ghost use Rattle.httparse.specs.Spans.{IsHeaderWithin, span_bytes, header_bytes};
ghost use Rattle.http_head.specs.Heads.{named_value, minor_of};
ghost use Rattle.http_head.specs.steps.HeadSpans.{HasAsciiNames};

use super::head::{Field, Version};
use capture::{Bytes, Items, Memory, Text};
use httparse::spans::HeaderSpan;
use std::alloc::Global;

/// The version of this minor number.
pub fn version_of(minor: u8) -> Version
    requires { minor ≤ 1 }
    ensures { minor_of result ≡ minor }
{
    if minor == 0 {
        Version::Http10
    } else {
        Version::Http11
    }
}

/// A copy of a text of ASCII.
pub fn copy_text(alloc: Global, bytes: &[u8]) -> Result<Text, Memory>
    requires { IsAscii bytes.now }
    ensures { IfOk result (λ copy. copy ≡ bytes.now) }
{
    match Text::of(Vec::from_slice(alloc, bytes)?) {
        Some(copy) => Ok(copy),
        None => unreachable!(),
    }
}

/// A copy of the field line that the header's spans cover.
fn copy_field(alloc: Global, text: &[u8], header: HeaderSpan) -> Result<Field, Memory>
    requires within { IsHeaderWithin (length text.now) header }
    requires name { IsAscii (span_bytes text.now header.name) }
    ensures { IfOk result (λ field. named_value field ≡ header_bytes text.now header) }
{
    Ok(Field {
        name: copy_text(alloc, header.name.of(text))?,
        value: Bytes::from_slice(alloc, header.value.of(text))?,
    })
}

/// Copies of the field lines that the headers' spans cover.
pub fn copy_fields(
    alloc: Global,
    text: &[u8],
    headers: &[HeaderSpan],
) -> Result<Items<Field>, Memory>
    requires within { All (IsHeaderWithin (length text.now)) headers.now }
    requires names { HasAsciiNames text.now headers.now }
    ensures { IfOk result (λ fields. map named_value fields ≡ map (header_bytes text.now) headers.now) }
{
    let mut fields = Vec::with_capacity(alloc, headers.len())?;
    for header in headers {
        fields.push(copy_field(alloc, text, *header)?)?;
    }
    Ok(Items::of(fields))
}
