//! Calls of `http_head`.
use capture::{Items, Memory, put_all, put_number};
use case_language::{in_pieces, split_front};
use case_texts::{always, put_next, put_next_number, told};
use http_head::{
    Field, HeadProgress, HeadReader, RequestHead, ResponseHead, Version, WireFault,
    find_section_end, first_value, read_head, read_request_head, read_section,
};
use std::alloc::Global;

/// The parts of a request head, or the fault.
pub fn request_head(alloc: Global, text: &[u8]) -> Result<Vec<u8>, Memory> {
    match read_request_head(alloc, text) {
        Ok(head) => request_parts(alloc, &head),
        Err(WireFault::Malformed) => told(alloc, b"Malformed"),
        Err(_) => Err(Memory),
    }
}

fn request_parts(alloc: Global, head: &RequestHead) -> Result<Vec<u8>, Memory> {
    let mut out = told(alloc, head.method.as_slice())?;
    put_next(&mut out, head.target.as_slice())?;
    put_next(&mut out, version_text(head.version))?;
    put_fields(&mut out, &head.fields)?;
    Ok(out)
}

/// The parts of a response head, or the fault.
pub fn response_head(alloc: Global, text: &[u8]) -> Result<Vec<u8>, Memory> {
    match read_head(alloc, text) {
        Ok(head) => response_parts(alloc, &head),
        Err(WireFault::Malformed) => told(alloc, b"Malformed"),
        Err(_) => Err(Memory),
    }
}

fn response_parts(alloc: Global, head: &ResponseHead) -> Result<Vec<u8>, Memory> {
    let mut out = told(alloc, version_text(head.version))?;
    put_next_number(&mut out, u64::from(head.status))?;
    put_next(&mut out, head.reason.as_slice())?;
    put_fields(&mut out, &head.fields)?;
    Ok(out)
}

fn version_text(version: Version) -> &'static [u8] {
    match version {
        Version::Http10 => b"HTTP/1.0",
        Version::Http11 => b"HTTP/1.1",
    }
}

/// The fields of a section, or the fault.
pub fn section(alloc: Global, text: &[u8]) -> Result<Vec<u8>, Memory> {
    match read_section(alloc, text) {
        Ok(fields) => {
            let mut out = told(alloc, b"Section")?;
            put_fields(&mut out, &fields)?;
            Ok(out)
        }
        Err(WireFault::Malformed) => told(alloc, b"Malformed"),
        Err(_) => Err(Memory),
    }
}

/// The value of the first field of the section that has the name in front of the first space, or that there is none.
pub fn section_value(alloc: Global, text: &[u8]) -> Result<Option<Vec<u8>>, Memory> {
    let Some((name, section)) = split_front(text) else {
        return Ok(None);
    };
    match read_section(alloc, section) {
        Ok(fields) => always(value_shown(alloc, &fields, name)),
        Err(WireFault::Malformed) => Ok(None),
        Err(_) => Err(Memory),
    }
}

fn value_shown(alloc: Global, fields: &Items<Field>, name: &[u8]) -> Result<Vec<u8>, Memory> {
    match first_value(fields.as_slice(), name) {
        Some(value) => told(alloc, value),
        None => told(alloc, b"None"),
    }
}

/// How many bytes go up to the end of a section, or that it doesn't end.
pub fn section_end(alloc: Global, text: &[u8]) -> Result<Vec<u8>, Memory> {
    match find_section_end(text) {
        Some(end) => {
            let mut out = Vec::new(alloc);
            put_number(&mut out, end as u64)?;
            Ok(out)
        }
        None => told(alloc, b"None"),
    }
}

/// `; NAME=VALUE` for each field.
fn put_fields(out: &mut Vec<u8>, fields: &Items<Field>) -> Result<(), Memory> {
    for field in fields.as_slice() {
        put_all(out, b"; ")?;
        put_all(out, field.name.as_slice())?;
        put_all(out, b"=")?;
        put_all(out, field.value.as_slice())?;
    }
    Ok(())
}

/// The head that a stream begins with, which is fed in pieces; or that more is to come, and whether it was blank so far; or that
/// a limit is passed. The text is the length of a piece, a space, and the stream.
pub fn head_stream(alloc: Global, text: &[u8]) -> Result<Option<Vec<u8>>, Memory> {
    match in_pieces(text) {
        Some((length, stream)) => always(collected(alloc, stream, length)),
        None => Ok(None),
    }
}

fn collected(alloc: Global, stream: &[u8], length: usize) -> Result<Vec<u8>, Memory> {
    let mut reader = HeadReader::new(alloc);
    for piece in stream.chunks(length.max(1)) {
        match reader.feed(piece)?.progress {
            HeadProgress::More => {}
            HeadProgress::Head => return head_found(alloc, &reader),
            HeadProgress::TooLong => return told(alloc, b"TooLong"),
        }
    }
    told(alloc, more_text(&reader))
}

fn head_found(alloc: Global, reader: &HeadReader) -> Result<Vec<u8>, Memory> {
    let mut out = told(alloc, b"Head ")?;
    put_all(&mut out, reader.text())?;
    Ok(out)
}

/// Whether nothing but line ends came, or they and a CR.
fn more_text(reader: &HeadReader) -> &'static [u8] {
    if reader.is_blank() {
        return b"More, blank";
    }
    if reader.may_be_blank() {
        return b"More, perhaps blank";
    }
    b"More"
}
