//! The exchanges of a load, as objects in memory take them.
ghost use Rattle.std.specs.Prelude.{All, IfOk};
ghost use Rattle.outside.specs.MemoryLink.{IsNew};
ghost use Rattle.time_text.specs.Texts.{InRange};

use capture::{Bytes, Memory, Taken, Text};
use load_maker::{date, origin, payload, uri};
use outside::MemoryLink;
use std::alloc::Global;

/// The number of the load.
const SEED: u64 = 0;

/// What a client asks for over one connection: the exchanges from one number up to another.
pub fn client(alloc: Global, from: u32, to: u32) -> Result<Vec<u8>, Memory> {
    bytes_of(alloc, &load_maker::client(alloc, from, to)?)
}

/// The links to the origins of these exchanges.
pub fn origins(alloc: Global, from: u32, to: u32) -> Result<Vec<MemoryLink>, Memory>
    ensures { IfOk result (λ links. All IsNew links.items) }
{
    let mut links = Vec::new(alloc);
    for i in from..to {
        links.push(MemoryLink::new(alloc, response_of(alloc, i)?, Vec::new(alloc)))?;
    }
    Ok(links)
}

/// What the origin of an exchange sends.
fn response_of(alloc: Global, i: u32) -> Result<Vec<u8>, Memory> {
    bytes_of(alloc, &origin(alloc, SEED, i)?)
}

/// What the clock answers.
pub fn times(alloc: Global, from: u32, to: u32) -> Result<Vec<u64>, Memory> {
    let mut times = Vec::new(alloc);
    for i in from..to {
        times.push(date(i))?;
    }
    Ok(times)
}

/// The capture of an exchange, with its payload whole.
pub fn taken(alloc: Global, i: u32) -> Result<Taken, Memory>
    ensures { IfOk result (λ taken. InRange taken.date) }
{
    let payload = payload(alloc, SEED, i)?;
    let head = head_of(alloc, i, payload.as_slice().len())?;
    Ok(Taken {
        method: Text::from_str(alloc, "GET")?,
        uri: uri_of(alloc, i)?,
        date: date(i),
        request: request_of(alloc, i)?,
        head,
        wire: payload,
        cut: false,
    })
}

/// What was sent for it.
fn request_of(alloc: Global, i: u32) -> Result<Bytes, Memory> {
    let host = i % 16;
    let request = format!(in alloc;
        "GET /p{i} HTTP/1.1\r\nHost: h{host}.test\r\nVia: 1.1 memproxy\r\nConnection: close\r\n\r\n"
    )?;
    Ok(Bytes::of(request.into_bytes()))
}

/// Its URL.
fn uri_of(alloc: Global, i: u32) -> Result<Text, Memory> {
    text_of(alloc, &uri(alloc, i)?)
}

/// What stands before the payload in an origin's response.
fn head_of(alloc: Global, i: u32, payload: usize) -> Result<Bytes, Memory> {
    let response = origin(alloc, SEED, i)?;
    let end = response.as_slice().len().saturating_sub(payload);
    let (head, _) = response.as_slice().split_at(end);
    Ok(Bytes::of(Vec::from_slice(alloc, head)?))
}

/// A URL is a text.
fn text_of(alloc: Global, url: &Bytes) -> Result<Text, Memory> {
    match Text::of(bytes_of(alloc, url)?) {
        Some(text) => Ok(text),
        None => Err(Memory),
    }
}

/// The same bytes, as a list.
fn bytes_of(alloc: Global, text: &Bytes) -> Result<Vec<u8>, Memory> {
    Ok(Vec::from_slice(alloc, text.as_slice())?)
}
