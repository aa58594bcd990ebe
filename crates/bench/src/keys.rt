//! Keys: what it costs to make the one of a url.
use capture::Memory;
use measuring::{Measured, Stopped, print_beside, shuffled, time_of, url_of};
use std::alloc::Global;
use std::io::Print;
use std::rt::Clock;
use surt_key::key_of;

/// How many urls there are, of 40 bytes each.
const URLS: u32 = 200_000;

pub fn measure<R: Clock + Print>(rt: &R, alloc: Global) -> Result<(), Stopped> {
    let urls = urls_of(alloc)?;
    measure_urls(rt, alloc, urls.as_slice())
}

/// Makes the keys of these urls.
fn measure_urls<R: Clock + Print>(rt: &R, alloc: Global, urls: &[String]) -> Result<(), Stopped> {
    let mut keys = 0u64;
    let start = Measured::start(rt)?;
    for url in urls {
        if key_of(alloc, url.as_bytes()).is_ok() {
            keys = keys.saturating_add(1);
        }
    }
    let nanos = start.nanos(rt)?;
    let plain = time_of_plain(rt, alloc, urls)?;
    print_beside(rt, "the key of a url of 40 bytes", keys, nanos, plain)
}

/// The nanoseconds that a plain loop over their bytes takes.
fn time_of_plain<R: Clock + Print>(rt: &R, alloc: Global, urls: &[String]) -> Result<u64, Stopped> {
    let text = joined(alloc, urls)?;
    time_of(rt, text.as_slice(), 1)
}

fn urls_of(alloc: Global) -> Result<Vec<String>, Memory> {
    let mut urls = Vec::with_capacity(alloc, URLS as usize)?;
    for i in 0..URLS {
        urls.push(url_of(alloc, shuffled(i, URLS))?)?;
    }
    Ok(urls)
}

fn joined(alloc: Global, urls: &[String]) -> Result<Vec<u8>, Memory> {
    let mut text = Vec::new(alloc);
    for url in urls {
        text.extend_from_slice(url.as_bytes())?;
    }
    Ok(text)
}
