//! Texts as case files write them: a byte that can't stand in a line stands in braces.
use crate::names::Names;
use crate::numbers::{byte_of, number_of};
use std::alloc::{AllocError, Global};

/// The bytes of a text: `{crlf}`, `{lf}`, `{cr}`, `{tab}` and `{open}` (an opening brace); `{0x7f}`, a byte; `{k}`, the
/// number for which the case is played; `{page}`, the text that the file names so, and `{front 12 page}`, the first so many
/// bytes of it; `{12 ab}`, so many times the text, or the one that it names. `None` where braces hold something else.
pub fn decode(alloc: Global, text: &str, names: Names) -> Result<Option<Vec<u8>>, AllocError> {
    let mut out = Vec::new(alloc);
    if put_decoded(alloc, &mut out, text, names)? {
        Ok(Some(out))
    } else {
        Ok(None)
    }
}

/// Puts the bytes of a text, and says whether each of its braces holds something.
fn put_decoded(
    alloc: Global,
    out: &mut Vec<u8>,
    text: &str,
    names: Names,
) -> Result<bool, AllocError> {
    let mut pieces = text.split('{');
    if let Some(first) = pieces.next() {
        out.extend_from_slice(first.as_bytes())?;
    }
    for piece in pieces {
        if !put_piece(alloc, out, piece, names)? {
            return Ok(false);
        }
    }
    Ok(true)
}

/// Puts what the braces hold whose opening one stands before the piece, and what follows them.
fn put_piece(
    alloc: Global,
    out: &mut Vec<u8>,
    piece: &str,
    names: Names,
) -> Result<bool, AllocError> {
    let Some((name, literal)) = piece.split_once('}') else {
        return Ok(false);
    };
    if !put_named(alloc, out, name, names)? {
        return Ok(false);
    }
    put_bytes(out, literal.as_bytes())
}

/// Puts bytes that are there.
fn put_bytes(out: &mut Vec<u8>, bytes: &[u8]) -> Result<bool, AllocError> {
    out.extend_from_slice(bytes)?;
    Ok(true)
}

/// Puts what the braces hold, and says whether they hold something.
fn put_named(
    alloc: Global,
    out: &mut Vec<u8>,
    name: &str,
    names: Names,
) -> Result<bool, AllocError> {
    match name {
        "crlf" => put_bytes(out, b"\r\n"),
        "lf" => put_bytes(out, b"\n"),
        "cr" => put_bytes(out, b"\r"),
        "tab" => put_bytes(out, b"\t"),
        "open" => put_bytes(out, b"{"),
        "k" => put_bytes(out, names.k.to_string(alloc)?.as_bytes()),
        _ => put_other(out, name, names),
    }
}

/// Puts a byte by its number, a text by its name, a front of one, or one so many times.
fn put_other(out: &mut Vec<u8>, name: &str, names: Names) -> Result<bool, AllocError> {
    if let Some(byte) = byte_of(name) {
        return put_bytes(out, &[byte]);
    }
    if let Some(text) = names.text_of(name) {
        return put_bytes(out, text);
    }
    match name.split_once(' ') {
        Some(("front", name)) => put_front(out, name, names),
        Some((count, text)) => put_times(out, count, text, names),
        None => Ok(false),
    }
}

/// Puts the first so many bytes of a text by its name.
fn put_front(out: &mut Vec<u8>, front: &str, names: Names) -> Result<bool, AllocError> {
    let Some((length, name)) = front.split_once(' ') else {
        return Ok(false);
    };
    let (Some(length), Some(text)) = (number_of(length, names.k), names.text_of(name)) else {
        return Ok(false);
    };
    let (front, _) = text.split_at(text.len().min(length as usize));
    put_bytes(out, front)
}

/// Puts a text, or the one that it names, so many times.
fn put_times(out: &mut Vec<u8>, count: &str, text: &str, names: Names) -> Result<bool, AllocError> {
    let Some(count) = number_of(count, names.k) else {
        return Ok(false);
    };
    let text = names.text_of(text).unwrap_or(text.as_bytes());
    for _ in 0..count {
        out.extend_from_slice(text)?;
    }
    Ok(true)
}

/// Bytes as a case file writes them.
pub fn encode(alloc: Global, bytes: &[u8]) -> Result<String, AllocError> {
    let mut out = String::new(alloc);
    for byte in bytes {
        put_byte(alloc, &mut out, *byte)?;
    }
    Ok(out)
}

fn put_byte(alloc: Global, out: &mut String, byte: u8) -> Result<(), AllocError> {
    match byte {
        b'\n' => out.push_str("{lf}"),
        b'\r' => out.push_str("{cr}"),
        b'{' => out.push_str("{open}"),
        32..=126 => out.push(byte as char),
        _ => put_number(alloc, out, byte),
    }
}

/// Puts a byte by its number.
fn put_number(alloc: Global, out: &mut String, byte: u8) -> Result<(), AllocError> {
    let text = format!(in alloc; "{{0x{byte:02x}}}")?;
    out.push_str(text.as_str())
}
