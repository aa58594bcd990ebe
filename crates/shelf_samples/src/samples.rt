//! Captures that are stored.
ghost use Rattle.std.specs.Prelude.{IfSome};
ghost use Rattle.warc_text.specs.Fits.{Fits};

use capture::Taken;
use case_captures::{Exchanged, prepared_of};
use std::alloc::Global;

/// A capture that is stored.
#[derive(Clone, Copy)]
pub enum Sample {
    /// One whose body is as long as its head tells.
    First,
    /// One with the payload of the first, in chunks.
    Second,
    /// One with another payload.
    Different,
}

/// Its address.
pub(crate) fn address_of(sample: Sample) -> &'static str {
    match sample {
        Sample::First => "http://a.test/x",
        Sample::Second => "http://b.test/y",
        Sample::Different => "http://c.test/z",
    }
}

/// Its payload.
pub(crate) fn payload_of(sample: Sample) -> &'static [u8] {
    match sample {
        Sample::First => b"hello",
        Sample::Second => b"hello",
        Sample::Different => b"world",
    }
}

/// What its origin sends.
fn stream_of(sample: Sample) -> &'static [u8] {
    match sample {
        Sample::First => b"HTTP/1.1 200 OK\r\nContent-Length: 5\r\n\r\nhello",
        Sample::Second => {
            b"HTTP/1.1 200 OK\r\nTransfer-Encoding: chunked\r\n\r\n2\r\nhe\r\n1\r\nl\r\n2\r\nlo\r\n0\r\n\r\n"
        }
        Sample::Different => b"HTTP/1.1 200 OK\r\nContent-Length: 5\r\n\r\nworld",
    }
}

/// The capture. `None` where there is no memory.
pub(crate) fn taken_of(alloc: Global, sample: Sample) -> Option<Taken>
    ensures { IfSome result Fits }
{
    let exchanged = Exchanged {
        date: 1_706_702_400_000,
        method: "GET",
        uri: address_of(sample),
        stream: stream_of(sample),
    };
    match prepared_of(alloc, &exchanged) {
        Ok(Some(prepared)) => Some(prepared.taken),
        Ok(None) => None,
        Err(_) => None,
    }
}
