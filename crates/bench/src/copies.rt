//! Copies of a text, beside which the time stands that it took to make it.
use measuring::{Measured, Stopped};
use std::alloc::Global;
use std::io::Print;
use std::rt::Clock;

/// The nanoseconds that it takes to copy a text, which is done so many times.
pub fn time_of_copy<R: Clock + Print>(
    rt: &R,
    alloc: Global,
    what: &str,
    text: &[u8],
    times: u32,
) -> Result<u64, Stopped> {
    let start = Measured::start(rt)?;
    for _ in 0..times {
        Vec::from_slice(alloc, text)?;
    }
    start.print(rt, what, u64::from(times))
}

/// Prints at what rate a text of so many bytes was made in these nanoseconds, and how many times as long that is as a copy.
pub fn print_rate<R: Print>(rt: &R, len: usize, made: u64, copied: u64) -> Result<(), Stopped> {
    let rate = (len as u64).saturating_mul(1_000);
    println!(rt;
        "{} MB/s, {} times the copy",
        rate.checked_div(made).unwrap_or(0),
        made.checked_div(copied).unwrap_or(0)
    )?;
    Ok(())
}
