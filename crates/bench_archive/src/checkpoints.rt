//! Checkpoints: what it costs to write them, and to open an archive by them in place of reading its volumes whole.
use archive_core::Archive;
use archive_shelf::Depth;
use bench_stock::{Stock, opened};
use disk_model::{Disk, MemoryDisk};
use measuring::{Measured, Stopped, print_share, resident};
use std::alloc::Global;
use std::io::Print;
use std::rt::{Clock, Files};

/// The volumes are as long as they come.
const VOLUME: u64 = 1 << 40;

pub fn measure<R: Clock + Files + Print>(rt: &R, alloc: Global) -> Result<(), Stopped> {
    let small = Stock {
        volumes: 10,
        captures: 100_000,
        body: 1_000,
    };
    measure_stock(rt, alloc, &small)?;
    let large = Stock {
        volumes: 10,
        captures: 10_000,
        body: 16_000,
    };
    measure_stock(rt, alloc, &large)
}

/// Opens an archive whole, settles its volumes, and opens it by their checkpoints.
fn measure_stock<R: Clock + Files + Print>(
    rt: &R,
    alloc: Global,
    stock: &Stock,
) -> Result<(), Stopped> {
    println!(rt;
        "{} captures with bodies of {} bytes",
        stock.count(),
        stock.body
    )?;
    let disk = stock.disk(alloc)?;
    let before = resident(rt, alloc);
    let (archive, whole) = open(rt, alloc, disk, Depth::Whole, stock.count())?;
    let held = resident(rt, alloc).saturating_sub(before);
    let disk = settled(rt, alloc, archive, stock)?;
    let (archive, short) = open(rt, alloc, disk, Depth::Checkpoints, stock.count())?;
    let then = resident(rt, alloc).saturating_sub(before);
    drop(archive.close());
    print_share(rt, "opening by checkpoints, of opening whole", short, whole)?;
    print_share(
        rt,
        "the memory held then, with the checkpoints, of that",
        then,
        held,
    )
}

/// Opens an archive, and gives the nanoseconds that this took.
fn open<R: Clock + Print>(
    rt: &R,
    alloc: Global,
    disk: MemoryDisk,
    depth: Depth,
    captures: u32,
) -> Result<(Archive<MemoryDisk>, u64), Stopped> {
    let start = Measured::start(rt)?;
    let archive = opened(alloc, disk, VOLUME, depth)?;
    match print_opening(rt, &start, captures) {
        Ok(nanos) => Ok((archive, nanos)),
        Err(stopped) => Err(stopped),
    }
}

/// Prints what an opening took for each capture, and gives its nanoseconds.
fn print_opening<R: Clock + Print>(
    rt: &R,
    start: &Measured,
    captures: u32,
) -> Result<u64, Stopped> {
    let nanos = start.nanos(rt)?;
    start.print(rt, "a capture found at opening", u64::from(captures))?;
    Ok(nanos)
}

/// Settles the volumes of an archive, and closes it.
fn settled<R: Clock + Print>(
    rt: &R,
    alloc: Global,
    mut archive: Archive<MemoryDisk>,
    stock: &Stock,
) -> Result<MemoryDisk, Stopped> {
    match settle(rt, alloc, &mut archive, stock) {
        Ok(()) => Ok(archive.close()),
        Err(stopped) => Err(stopped),
    }
}

/// Settles the volumes of an archive, and prints how long that took.
fn settle<R: Clock + Print, D: Disk>(
    rt: &R,
    alloc: Global,
    archive: &mut Archive<D>,
    stock: &Stock,
) -> Result<(), Stopped> {
    let start = Measured::start(rt)?;
    let count = archive.settle(alloc).unwrap_or(0);
    let nanos = start.nanos(rt)?;
    println!(rt;
        "{count} volumes of {} captures settled: {} ms each",
        stock.captures,
        (nanos / 1_000_000)
            .checked_div(u64::from(count))
            .unwrap_or(0)
    )?;
    Ok(())
}
