//! Digests: what SHA-1 costs.
use digest32::payload_digest;
use measuring::{Measured, Stopped, print_beside, time_of};
use std::alloc::Global;
use std::io::Print;
use std::rt::Clock;

/// The length of the payload.
const PAYLOAD: usize = 1_000_000;

/// How often its digest is made.
const TIMES: u32 = 100;

pub fn measure<R: Clock + Print>(rt: &R, alloc: Global) -> Result<(), Stopped> {
    let payload = vec![in alloc; b'x'; PAYLOAD]?;
    measure_payload(rt, payload.as_slice())
}

/// Makes the digest of this payload.
fn measure_payload<R: Clock + Print>(rt: &R, payload: &[u8]) -> Result<(), Stopped> {
    let start = Measured::start(rt)?;
    let firsts = firsts_of(payload);
    let nanos = start.nanos(rt)?;
    println!(rt; "the first bytes of the digests, added up: {firsts}")?;
    let plain = time_of(rt, payload, TIMES)?;
    print_beside(
        rt,
        "the digest of a payload of 1,000,000 bytes",
        u64::from(TIMES),
        nanos,
        plain,
    )
}

/// The first bytes of its digests, added up.
fn firsts_of(payload: &[u8]) -> u64 {
    let mut firsts = 0u64;
    for _ in 0..TIMES {
        let digest = payload_digest(payload);
        firsts = firsts.saturating_add(u64::from(digest[0]));
    }
    firsts
}
