//! Groups: what it costs to compose the records of a capture.
ghost use Rattle.time_text.specs.Texts.{InRange};

use capture::{Memory, Taken};
use digest32::payload_digest;
use measuring::{Measured, Stopped, print_beside, taken_of, time_of};
use std::alloc::Global;
use std::io::Print;
use std::rt::Clock;
use uuid::Uuid;
use warc_text::put_group;

/// The length of the body, as of a small page.
const BODY: usize = 20_000;

/// How often the group is composed.
const TIMES: u32 = 20_000;

pub fn measure<R: Clock + Print>(rt: &R, alloc: Global) -> Result<(), Stopped> {
    let taken = taken_of(alloc, BODY)?;
    measure_group(rt, alloc, &taken)
}

/// Composes the groups of this capture.
fn measure_group<R: Clock + Print>(rt: &R, alloc: Global, taken: &Taken) -> Result<(), Stopped>
    requires { InRange taken.now.date }
{
    let start = Measured::start(rt)?;
    let group = composed(alloc, taken)?;
    print_composed(rt, &start, group.as_slice())
}

/// Prints how long that took from the start on.
fn print_composed<R: Clock + Print>(rt: &R, start: &Measured, group: &[u8]) -> Result<(), Stopped> {
    let nanos = start.nanos(rt)?;
    let plain = time_of(rt, group, TIMES)?;
    print_beside(
        rt,
        "a group with a body of 20,000 bytes composed",
        u64::from(TIMES),
        nanos,
        plain,
    )
}

/// The last of the groups, each of which takes the place of the one before it.
fn composed(alloc: Global, taken: &Taken) -> Result<Vec<u8>, Memory>
    requires { InRange taken.now.date }
{
    let namespace = Uuid::from_bytes([7; 16]);
    let digest = payload_digest(taken.wire.as_slice());
    let mut group = Vec::new(alloc);
    for number in 0..TIMES {
        group.clear();
        put_group(&mut group, &namespace, number, taken, &digest, None)?;
    }
    Ok(group)
}
