//! The archive over a disk in memory: captures stored through the session's call, one connection after another, and opened
//! again.
ghost use Rattle.std.specs.Prelude.{◌<◌, ◌≤◌, ◌^◌, IsTrue, OnOk};
ghost use Rattle.warc_journal.specs.Journals.{IsInStep, volumes};

use archive_shelf::{Counts, Depth, Shelf};
use bench_stock::{CONNECTION, Connection, add, begin, journal_of_nothing, opened, site, taken};
use disk_model::{Disk, MemoryDisk};
use measuring::{Measured, Stopped, resident};
use std::alloc::Global;
use std::io::Print;
use std::rt::{Clock, Files};
use uuid::Uuid;
use warc_journal::Journal;

/// How many captures there are.
const CAPTURES: u32 = 20_000;

/// The length past which a volume takes no further capture, in bytes, and the same for short volumes.
const VOLUME: u64 = 1_000_000;

const SHORT_VOLUME: u64 = 160_000;

pub fn measure<R: Clock + Files + Print>(rt: &R, alloc: Global) -> Result<(), Stopped> {
    measure_memory(rt, alloc)?;
    measure_archive(rt, alloc, CAPTURES, VOLUME)?;
    measure_archive(rt, alloc, CAPTURES / 4, SHORT_VOLUME)?;
    measure_archive(rt, alloc, CAPTURES / 2, SHORT_VOLUME)?;
    measure_archive(rt, alloc, CAPTURES, SHORT_VOLUME)
}

/// Stores so many captures, and opens the archive again.
fn measure_archive<R: Clock + Print>(
    rt: &R,
    alloc: Global,
    captures: u32,
    volume_bytes: u64,
) -> Result<(), Stopped>
    requires captures { captures ≤ 20000 }
    requires volume { volume_bytes < 2 ^ 62 }
{
    let disk = stored(rt, alloc, captures, volume_bytes)?;
    open_again(rt, alloc, disk, volume_bytes)
}

/// A disk on which so many captures were stored, of which it prints the time.
fn stored<R: Clock + Print>(
    rt: &R,
    alloc: Global,
    captures: u32,
    volume_bytes: u64,
) -> Result<MemoryDisk, Stopped>
    requires captures { captures ≤ 20000 }
    requires volume { volume_bytes < 2 ^ 62 }
{
    let disk = MemoryDisk::new(alloc, Vec::new(alloc));
    let mut archive = opened(alloc, disk, volume_bytes, Depth::Whole)?;
    let nanos = fill(rt, alloc, &mut archive, captures);
    match print_counts(rt, "stored", &archive.counts(), nanos) {
        Ok(()) => Ok(archive.close()),
        Err(stopped) => Err(stopped),
    }
}

/// What an archive keeps of a capture. No other archive was made before, whose memory it could be given.
fn measure_memory<R: Files + Print>(rt: &R, alloc: Global) -> Result<(), Stopped> {
    let disk = with_captures(alloc, CAPTURES)?;
    let before = resident(rt, alloc);
    let archive = opened(alloc, disk, VOLUME, Depth::Whole)?;
    let bytes = resident(rt, alloc).saturating_sub(before);
    let counts = archive.counts();
    drop(archive.close());
    println!(rt;
        "memory of a capture: {} bytes, {} of them",
        bytes.checked_div(u64::from(counts.captures)).unwrap_or(0),
        counts.captures
    )?;
    Ok(())
}

/// A disk with a volume of so many captures.
fn with_captures(alloc: Global, captures: u32) -> Result<MemoryDisk, Stopped> {
    let mut journal = journal_of_nothing(alloc);
    add_captures(alloc, &mut journal, captures)?;
    Ok(journal.into_disk())
}

/// Begins a volume, and adds so many captures to it.
fn add_captures<D: Disk>(
    alloc: Global,
    journal: &mut Journal<D>,
    captures: u32,
) -> Result<(), Stopped>
    requires { IsTrue D.tells → IsInStep D.Disk journal.old }
{
    let namespace = Uuid::from_bytes([7; 16]);
    begin(alloc, journal, &namespace)?;
    'adding: for number in 0..captures {
        add_taken(alloc, journal, &namespace, number)?;
    }
    Ok(())
}

/// Adds the capture of an exchange of the load to the last volume.
fn add_taken<D: Disk>(
    alloc: Global,
    journal: &mut Journal<D>,
    namespace: &Uuid,
    number: u32,
) -> Result<(), Stopped>
    requires volumes { 0 < volumes journal.old }
    requires in_step { IsTrue D.tells → IsInStep D.Disk journal.old }
    ensures volumes { OnOk result (0 < volumes journal.new) }
    ensures in_step { OnOk result (IsTrue D.tells → IsInStep D.Disk journal.new) }
{
    let taken = taken(alloc, number)?;
    add(alloc, journal, namespace, number, &taken)
}

/// Opens an archive, and prints how long that took.
fn open_again<R: Clock + Print>(
    rt: &R,
    alloc: Global,
    disk: MemoryDisk,
    volume_bytes: u64,
) -> Result<(), Stopped>
    requires volume { volume_bytes < 2 ^ 62 }
{
    let start = Measured::start(rt);
    let archive = opened(alloc, disk, volume_bytes, Depth::Whole)?;
    let nanos = nanos_of(rt, start);
    let counts = archive.counts();
    drop(archive.close());
    print_counts(rt, "opened", &counts, nanos)
}

/// Stores so many captures, and gives the nanoseconds that this took.
fn fill<R: Clock, S: Shelf>(
    rt: &R,
    alloc: Global,
    shelf: &mut S,
    captures: u32,
) -> Result<u64, Stopped>
    requires captures { captures ≤ 20000 }
{
    let site = site(alloc)?;
    let mut nanos = 0u64;
    for connection in 0..captures / CONNECTION {
        let connection = Connection::new(alloc, connection * CONNECTION)?;
        nanos = nanos.saturating_add(connection.serve_timed(rt, alloc, shelf, &site)?);
    }
    Ok(nanos)
}

fn nanos_of<R: Clock>(rt: &R, start: Result<Measured, Stopped>) -> Result<u64, Stopped> {
    start?.nanos(rt)
}

fn print_counts<R: Print>(
    rt: &R,
    done: &str,
    counts: &Counts,
    nanos: Result<u64, Stopped>,
) -> Result<(), Stopped> {
    println!(rt;
        "{} captures {done}, {} of them revisits, in {} volumes: {} ms",
        counts.captures,
        counts.revisits,
        counts.volumes,
        nanos? / 1_000_000
    )?;
    Ok(())
}
