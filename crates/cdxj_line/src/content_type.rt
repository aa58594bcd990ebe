//! The media type of a response, as lines and the index have it.
ghost use Rattle.std.specs.Prelude.{◌≡◌, codes, IfOk, option_copied};
ghost use Rattle.std.specs.Char.{is_ascii_graphic};
ghost use Rattle.std.specs.List.{list_all};
ghost use Rattle.cdxj_line.specs.MediaType as spec;
ghost use Rattle.cdxj_line.specs.MediaType.{type_text, type_or_unknown};

use crate::cut::front_len;
use capture::{Memory, Text, trim_ows};
use std::alloc::Global;

/// What a line of a revisit has in place of a media type.
pub const REVISIT: &str = "warc/revisit";

/// The media type of a response whose first Content-Type field has this value (RFC 9110, section 8.3), in lower case.
///
/// It is the value up to its first `;`, without the blanks at both ends. It is `unk` where there is no such field, where
/// nothing stands there or a byte that is no graphic character of ASCII, and where it is `warc/revisit`.
pub fn media_type(alloc: Global, content_type: Option<&[u8]>) -> Result<Text, Memory>
    ensures { IfOk result (λ mime. mime ≡ spec.media_type (option_copied content_type.entry)) }
{
    match content_type {
        Some(value) => type_of(alloc, value),
        None => unknown(alloc),
    }
}

/// The media type of a response whose Content-Type has this value: up to its first `;`, in lower case; `unk` where that isn't told.
fn type_of(alloc: Global, value: &[u8]) -> Result<Text, Memory>
    ensures { IfOk result (λ mime. mime ≡ type_or_unknown (type_text value.now)) }
{
    let (front, _) = value.split_at(front_len(value, b';'));
    let mut text = Vec::from_slice(alloc, trim_ows(front))?;
    text.as_mut_slice().make_ascii_lowercase();
    if !is_told(text.as_slice()) {
        return unknown(alloc);
    }
    match Text::of(text) {
        Some(text) => Ok(text),
        None => unreachable!(),
    }
}

/// `unk`, which stands where no media type is told.
fn unknown(alloc: Global) -> Result<Text, Memory>
    ensures { IfOk result (λ mime. mime ≡ codes "unk") }
{
    Text::from_str(alloc, "unk")
}

/// Whether the text is one or more graphic characters, and isn't the type that stands for a revisit.
fn is_told(text: &[u8]) -> bool
    ensures { result ≡ spec.is_told text.now }
{
    !text.is_empty() && is_graphic(text) && text != REVISIT.as_bytes()
}

/// Whether each byte is a graphic character of ASCII.
fn is_graphic(text: &[u8]) -> bool
    ensures { result ≡ list_all is_ascii_graphic text.now }
{
    text.iter().all(|b| b.is_ascii_graphic())
}
