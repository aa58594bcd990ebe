//! Words of a case's text, and texts that a call answers.
use capture::{Memory, Site, Text, put_all, put_number};
use std::alloc::Global;

/// The site at `http://localhost:8080`.
pub fn site_of(alloc: Global) -> Result<Site, Memory> {
    Ok(Site {
        base: Text::from_str(alloc, "http://localhost:8080")?,
        host: Text::from_str(alloc, "localhost")?,
        port: 8080,
    })
}

/// A text in memory of its own.
pub fn told(alloc: Global, text: &[u8]) -> Result<Vec<u8>, Memory> {
    Ok(Vec::from_slice(alloc, text)?)
}

/// A number in decimal digits.
pub fn number(alloc: Global, value: u64) -> Result<Vec<u8>, Memory> {
    let mut out = Vec::new(alloc);
    put_number(&mut out, value)?;
    Ok(out)
}

/// Puts a text, behind a space where something stands before it.
pub fn put_next(out: &mut Vec<u8>, text: &[u8]) -> Result<(), Memory> {
    if !out.is_empty() {
        put_all(out, b" ")?;
    }
    put_all(out, text)
}

/// Puts a number, behind a space where something stands before it.
pub fn put_next_number(out: &mut Vec<u8>, value: u64) -> Result<(), Memory> {
    if !out.is_empty() {
        put_all(out, b" ")?;
    }
    put_number(out, value)
}

/// The answer of a call that takes any text.
pub fn always(answer: Result<Vec<u8>, Memory>) -> Result<Option<Vec<u8>>, Memory> {
    match answer {
        Ok(text) => Ok(Some(text)),
        Err(Memory) => Err(Memory),
    }
}
