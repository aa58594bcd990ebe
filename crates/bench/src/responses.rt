//! Responses: what it costs to read one whose body is as long as it gets, and what memory is held meanwhile.
use capture::{BODY_LIMIT, Memory};
use http_wire::ResponseReader;
use measuring::{Measured, Stopped, print_beside, resident, time_of};
use std::alloc::Global;
use std::io::Print;
use std::rt::{Clock, Files};

/// How many bytes of a body stand in a piece, as of a window on a link.
const PIECE: usize = 16_384;

/// A kind of response, and the head of one.
struct Kind {
    name: &'static str,
    head: &'static [u8],
}

/// A response whose length is told, one up to the end, and one in chunks.
static TOLD: Kind = Kind {
    name: "a response of 64 MiB, its length told",
    head: b"HTTP/1.1 200 OK\r\nContent-Length: 67108864\r\n\r\n",
};

static TO_END: Kind = Kind {
    name: "one up to the end",
    head: b"HTTP/1.1 200 OK\r\n\r\n",
};

static CHUNKED: Kind = Kind {
    name: "one in chunks of 16 KiB",
    head: b"HTTP/1.1 200 OK\r\nTransfer-Encoding: chunked\r\n\r\n",
};

pub fn measure<R: Clock + Files + Print>(rt: &R, alloc: Global) -> Result<(), Stopped> {
    let piece = vec![in alloc; b'x'; PIECE]?;
    measure_all(rt, alloc, piece.as_slice())
}

/// Measures each kind with bodies of this piece.
fn measure_all<R: Clock + Files + Print>(
    rt: &R,
    alloc: Global,
    piece: &[u8],
) -> Result<(), Stopped> {
    measure_one(rt, alloc, &TOLD, piece)?;
    measure_one(rt, alloc, &TO_END, piece)?;
    let chunk = chunk_of(alloc, piece)?;
    measure_one(rt, alloc, &CHUNKED, chunk.as_slice())
}

/// The piece as a chunk.
fn chunk_of(alloc: Global, piece: &[u8]) -> Result<Vec<u8>, Memory> {
    let mut chunk = Vec::from_slice(alloc, b"4000\r\n")?;
    chunk.extend_from_slice(piece)?;
    chunk.extend_from_slice(b"\r\n")?;
    Ok(chunk)
}

/// Reads a response of this kind, whose body is the piece again and again up to the limit.
fn measure_one<R: Clock + Files + Print>(
    rt: &R,
    alloc: Global,
    kind: &Kind,
    piece: &[u8],
) -> Result<(), Stopped> {
    let mut reader = ResponseReader::new(alloc, false);
    measure_reader(rt, alloc, &mut reader, kind, piece)
}

/// The same by this reader, which is as new.
fn measure_reader<R: Clock + Files + Print>(
    rt: &R,
    alloc: Global,
    reader: &mut ResponseReader,
    kind: &Kind,
    piece: &[u8],
) -> Result<(), Stopped> {
    let before = resident(rt, alloc);
    let start = Measured::start(rt)?;
    read(alloc, reader, kind.head, piece)?;
    let nanos = start.nanos(rt)?;
    let held = resident(rt, alloc).saturating_sub(before);
    print_read(rt, kind.name, nanos, held, reader)
}

/// Prints how long it took to read the bytes of a body that this reader has whole, and how much memory was held then.
fn print_read<R: Clock + Print>(
    rt: &R,
    what: &str,
    nanos: u64,
    held: u64,
    reader: &mut ResponseReader,
) -> Result<(), Stopped> {
    reader.end()?;
    let response = reader.take();
    print_wire(rt, what, nanos, held, response.wire.as_slice())
}

fn print_wire<R: Clock + Print>(
    rt: &R,
    what: &str,
    nanos: u64,
    held: u64,
    wire: &[u8],
) -> Result<(), Stopped> {
    let len = wire.len() as u64;
    let plain = time_of(rt, wire, 1)?;
    print_beside(rt, what, 1, nanos, plain)?;
    let percent = held.saturating_mul(100).checked_div(len).unwrap_or(0);
    println!(rt; "    {len} bytes read, memory held: {percent}% of them")?;
    Ok(())
}

/// Feeds the reader all pieces.
fn read(
    alloc: Global,
    reader: &mut ResponseReader,
    head: &[u8],
    piece: &[u8],
) -> Result<(), Stopped> {
    reader.feed(alloc, head)?;
    let pieces = BODY_LIMIT.checked_div(piece.len() as u64).unwrap_or(0);
    for _ in 0..pieces {
        reader.feed(alloc, piece)?;
    }
    Ok(())
}
