//! A capture, as it is stored.
ghost use Rattle.std.specs.Prelude.{IfOk};
ghost use Rattle.time_text.specs.Texts.{InRange};

use crate::entries::{NOON, text_of};
use capture::{Bytes, Memory, Taken, Text};
use std::alloc::Global;

/// What was sent for it.
const REQUEST: &[u8] =
    b"GET /p HTTP/1.1\r\nHost: a.test\r\nVia: 1.1 memproxy\r\nConnection: close\r\n\r\n";

/// A page of so many bytes.
pub fn taken_of(alloc: Global, len: usize) -> Result<Taken, Memory>
    ensures { IfOk result (λ taken. InRange taken.date) }
{
    page_of(alloc, "http://a.test/p", vec![in alloc; b'x'; len]?)
}

/// The page at a url, with this body.
pub fn page_of(alloc: Global, uri: &str, body: Vec<u8>) -> Result<Taken, Memory>
    ensures { IfOk result (λ taken. InRange taken.date) }
{
    let len = body.len();
    let head = format!(in alloc;
        "HTTP/1.1 200 OK\r\nContent-Type: text/html\r\nContent-Length: {len}\r\nServer: s\r\n\r\n"
    )?;
    Ok(Taken {
        method: Text::from_str(alloc, "GET")?,
        uri: text_of(alloc, uri)?,
        date: NOON,
        request: Bytes::of(Vec::from_slice(alloc, REQUEST)?),
        head: Bytes::of(Vec::from_slice(alloc, head.as_bytes())?),
        wire: Bytes::of(body),
        cut: false,
    })
}
