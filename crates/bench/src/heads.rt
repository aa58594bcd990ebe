//! Heads: what it costs to find the end of one, beside what its grammar costs.
use http_head::find_head_end;
use httparse::spans::{EMPTY_HEADER_SPAN, parse_request};
use measuring::{Measured, Stopped};
use std::alloc::Global;
use std::io::Print;
use std::rt::Clock;

/// A request's head of 662 bytes, with fourteen fields of 44 bytes each.
const HEAD: &[u8] = b"GET http://a.test/x HTTP/1.1\r\n\
    X-Field-Number-00: a value of some bytes 00\r\n\
    X-Field-Number-01: a value of some bytes 01\r\n\
    X-Field-Number-02: a value of some bytes 02\r\n\
    X-Field-Number-03: a value of some bytes 03\r\n\
    X-Field-Number-04: a value of some bytes 04\r\n\
    X-Field-Number-05: a value of some bytes 05\r\n\
    X-Field-Number-06: a value of some bytes 06\r\n\
    X-Field-Number-07: a value of some bytes 07\r\n\
    X-Field-Number-08: a value of some bytes 08\r\n\
    X-Field-Number-09: a value of some bytes 09\r\n\
    X-Field-Number-10: a value of some bytes 10\r\n\
    X-Field-Number-11: a value of some bytes 11\r\n\
    X-Field-Number-12: a value of some bytes 12\r\n\
    X-Field-Number-13: a value of some bytes 13\r\n\
    \r\n";

/// How often its end is looked for, and how often it is parsed.
const TIMES: u32 = 100_000;

pub fn measure<R: Clock + Print>(rt: &R, alloc: Global) -> Result<(), Stopped> {
    measure_head(rt, alloc, HEAD)
}

/// Looks for the end of the head, and parses it.
fn measure_head<R: Clock + Print>(rt: &R, alloc: Global, head: &[u8]) -> Result<(), Stopped> {
    let ended = ended(rt, head)?;
    let grammar = parsed(rt, alloc, head)?;
    println!(rt;
        "{} bytes; finding the end takes {}% of parsing",
        head.len(),
        ended.saturating_mul(100).checked_div(grammar).unwrap_or(0)
    )?;
    Ok(())
}

/// The nanoseconds that it takes to find its end.
fn ended<R: Clock + Print>(rt: &R, head: &[u8]) -> Result<u64, Stopped> {
    let mut found = 0u64;
    let start = Measured::start(rt)?;
    for _ in 0..TIMES {
        if find_head_end(head).is_some() {
            found = found.saturating_add(1);
        }
    }
    start.print(rt, "the end of a head found", found)
}

/// The nanoseconds that it takes to parse it.
fn parsed<R: Clock + Print>(rt: &R, alloc: Global, head: &[u8]) -> Result<u64, Stopped> {
    let mut headers = vec![in alloc; EMPTY_HEADER_SPAN; 32]?;
    let mut parsed = 0u64;
    let start = Measured::start(rt)?;
    for _ in 0..TIMES {
        if parse_request(head, headers.as_mut_slice()).is_ok() {
            parsed = parsed.saturating_add(1);
        }
    }
    start.print(rt, "the same head parsed by httparse", parsed)
}
