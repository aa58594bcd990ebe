//! Calls of `capture` over a text, of `digest32` and of `cdxj_line`.
use crate::words::told;
use capture::{Memory, Text};
use cdxj_line::{media_type, put_line, put_object, read_line};
use digest32::{base32_of, payload_digest, read_base32};
use std::alloc::Global;

/// The text of these bytes, or `None`.
pub fn text_read(alloc: Global, bytes: &[u8]) -> Result<Vec<u8>, Memory> {
    match Text::of(told(alloc, bytes)?) {
        Some(text) => told(alloc, text.as_slice()),
        None => told(alloc, b"None"),
    }
}

/// The digest in base32.
pub fn digest_of(alloc: Global, text: &[u8]) -> Result<Vec<u8>, Memory> {
    told(alloc, &base32_of(&payload_digest(text)))
}

/// What was read, written again.
pub fn base32_read(alloc: Global, text: &[u8]) -> Result<Vec<u8>, Memory> {
    match read_base32(text) {
        Some(digest) => told(alloc, &base32_of(&digest)),
        None => told(alloc, b"None"),
    }
}

/// The media type of a response whose first Content-Type field has this value, or that has none.
pub fn media_type_of(alloc: Global, content_type: Option<&[u8]>) -> Result<Vec<u8>, Memory> {
    let mime = media_type(alloc, content_type)?;
    told(alloc, mime.as_slice())
}

/// The line that was read, written again.
pub fn line_read(alloc: Global, text: &[u8]) -> Result<Vec<u8>, Memory> {
    match read_line(alloc, text)? {
        Some(line) => {
            let mut out = Vec::new(alloc);
            put_line(&mut out, &line)?;
            Ok(out)
        }
        None => told(alloc, b"None"),
    }
}

/// The JSON object of the line that was read, with the further members of an answer to a query.
pub fn object_of(alloc: Global, text: &[u8]) -> Result<Vec<u8>, Memory> {
    match read_line(alloc, text)? {
        Some(line) => {
            let mut out = Vec::new(alloc);
            put_object(&mut out, &line.parts(), true)?;
            Ok(out)
        }
        None => told(alloc, b"None"),
    }
}
