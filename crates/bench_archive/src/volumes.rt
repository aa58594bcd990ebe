//! Volumes: what it costs to add a group to one and to scan it, beside composing and digesting the same bytes.
ghost use Rattle.std.specs.Prelude.{IsTrue};
ghost use Rattle.time_text.specs.Texts.{InRange};
ghost use Rattle.warc_journal.specs.Journals.{IsInStep};

use bench_stock::{add, begin, journal_of_nothing};
use capture::{Memory, Taken};
use digest32::payload_digest;
use disk_model::Disk;
use measuring::{Measured, Stopped, print_beside, print_share, taken_of, time_of};
use std::alloc::Global;
use std::io::Print;
use std::rt::Clock;
use uuid::Uuid;
use warc_journal::Journal;
use warc_scan::{GroupStep, next_group};
use warc_text::put_group;

/// How many groups there are, each with a body of this length.
const GROUPS: u32 = 10_000;

const BODY: usize = 1_000;

/// The namespace of the records.
const NAMESPACE: [u8; 16] = [7; 16];

pub fn measure<R: Clock + Print>(rt: &R, alloc: Global) -> Result<(), Stopped> {
    let taken = taken_of(alloc, BODY)?;
    measure_groups(rt, alloc, &taken)
}

/// Composes the groups of this capture, adds them to a volume, and scans their texts.
fn measure_groups<R: Clock + Print>(rt: &R, alloc: Global, taken: &Taken) -> Result<(), Stopped>
    requires { InRange taken.now.date }
{
    let start = Measured::start(rt)?;
    let volume = texts_of(alloc, taken)?;
    measure_appends(rt, alloc, &start, taken, volume.as_slice())?;
    measure_scan(rt, alloc, volume.as_slice())
}

/// Takes the time of what was composed from the start on, and adds the groups to a volume on a disk in memory.
fn measure_appends<R: Clock + Print>(
    rt: &R,
    alloc: Global,
    start: &Measured,
    taken: &Taken,
    volume: &[u8],
) -> Result<(), Stopped>
    requires { InRange taken.now.date }
{
    let items = u64::from(GROUPS);
    let composed = start.nanos(rt)?;
    let added = added(rt, alloc, taken)?;
    let plain = time_of(rt, volume, 1)?;
    print_beside(rt, "a group digested and composed", items, composed, plain)?;
    print_beside(rt, "the same, and added to a volume", items, added, plain)?;
    print_share(
        rt,
        "adding a group, of digesting and composing it",
        added,
        composed,
    )
}

/// The nanoseconds that it takes to add the groups to a volume.
fn added<R: Clock>(rt: &R, alloc: Global, taken: &Taken) -> Result<u64, Stopped>
    requires { InRange taken.now.date }
{
    let mut journal = journal_of_nothing(alloc);
    added_to(rt, alloc, &mut journal, taken)
}

fn added_to<R: Clock, D: Disk>(
    rt: &R,
    alloc: Global,
    journal: &mut Journal<D>,
    taken: &Taken,
) -> Result<u64, Stopped>
    requires in_step { IsTrue D.tells → IsInStep D.Disk journal.old }
    requires date { InRange taken.now.date }
{
    let start = Measured::start(rt)?;
    add_all(alloc, journal, taken)?;
    start.nanos(rt)
}

/// Scans the groups, and digests their bytes.
fn measure_scan<R: Clock + Print>(rt: &R, alloc: Global, volume: &[u8]) -> Result<(), Stopped> {
    let start = Measured::start(rt)?;
    let found = scan(alloc, volume);
    let scanned = start.nanos(rt)?;
    let start = Measured::start(rt)?;
    let digest = payload_digest(volume);
    let digested = start.nanos(rt)?;
    println!(rt;
        "{} bytes, whose digest begins with {}",
        volume.len(),
        digest[0]
    )?;
    let plain = time_of(rt, volume, 1)?;
    print_beside(rt, "a group scanned", found, scanned, plain)?;
    print_share(rt, "scanning a volume, of digesting it", scanned, digested)
}

/// The texts of the groups, one behind another.
fn texts_of(alloc: Global, taken: &Taken) -> Result<Vec<u8>, Memory>
    requires { InRange taken.now.date }
{
    let namespace = Uuid::from_bytes(NAMESPACE);
    let mut texts = Vec::new(alloc);
    for number in 0..GROUPS {
        let digest = payload_digest(taken.wire.as_slice());
        put_group(&mut texts, &namespace, number, taken, &digest, None)?;
    }
    Ok(texts)
}

/// Begins a volume and adds the groups to it.
fn add_all<D: Disk>(alloc: Global, journal: &mut Journal<D>, taken: &Taken) -> Result<(), Stopped>
    requires in_step { IsTrue D.tells → IsInStep D.Disk journal.old }
    requires date { InRange taken.now.date }
{
    let namespace = Uuid::from_bytes(NAMESPACE);
    begin(alloc, journal, &namespace)?;
    'adding: for number in 0..GROUPS {
        add(alloc, journal, &namespace, number, taken)?;
    }
    Ok(())
}

/// How many groups stand one behind another.
fn scan(alloc: Global, volume: &[u8]) -> u64 {
    let namespace = Uuid::from_bytes(NAMESPACE);
    let mut rest = volume;
    let mut found = 0u64;
    for number in 0..GROUPS {
        match next_group(alloc, rest, false, &namespace, number) {
            GroupStep::Group(group) => {
                let len = usize::try_from(group.len).unwrap_or(usize::MAX);
                (_, rest) = rest.split_at(rest.len().min(len));
                found = found.saturating_add(1);
            }
            _ => return found,
        }
    }
    found
}
