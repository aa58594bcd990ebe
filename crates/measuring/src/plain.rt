//! A plain loop over bytes, beside which the times of the crates stand.
use crate::measured::Measured;
use crate::stopped::Stopped;
use std::io::Print;
use std::rt::Clock;

/// How many nanoseconds it takes to add up the bytes of a text so many times.
pub fn time_of<R: Clock + Print>(rt: &R, text: &[u8], times: u32) -> Result<u64, Stopped> {
    let mut sum = 0u64;
    let start = Measured::start(rt)?;
    for _ in 0..times {
        sum = sum_of(sum, text);
    }
    let nanos = start.nanos(rt)?;
    // It is printed so that no compiler leaves the loop out.
    println!(rt; "the sum of their bytes, by a plain loop: {sum}")?;
    Ok(nanos)
}

fn sum_of(before: u64, text: &[u8]) -> u64 {
    let mut sum = before;
    for byte in text {
        sum = sum.wrapping_add(u64::from(*byte));
    }
    sum
}
