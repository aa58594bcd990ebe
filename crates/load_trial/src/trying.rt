//! The command `trial`: a load is stored through connections, over an archive in memory, and brought back.
ghost use Rattle.std.specs.Prelude.{◌≡◌, ℕ, All, IfOk, IsTrue};
ghost use Rattle.archive_core.specs.Told.{told_of};
ghost use Rattle.archive_shelf.specs.Storing.{counts_of};
ghost use Rattle.load_shelf.specs.Loads.{IsFilled};
ghost use Rattle.outside.specs.MemoryLink.{IsNew};
ghost use Rattle.load_trial.specs.Trials.{IsTried, Tries, trial_namespace, trial_volume};

use archive_core::Archive;
use archive_reopening::reopen;
use archive_shelf::{Depth, Shelf};
use capture::{Limits, Memory, Site, Text};
use command::{Ran, Status, print_as, trial_text};
use disk_model::{Disk, Kind, MemoryDisk};
use load_maker::{client, date, origin};
use load_shelf::LoadShelf;
use outside::{MemoryClock, MemoryDialer, MemoryLink, Sink};
use session::{Served, serve};
use std::alloc::Global;
use uuid::Uuid;

/// The archive's namespace: 6ba7b810-9dad-11d1-80b4-00c04fd430c8.
const NAMESPACE: [u8; 16] = [
    0x6b, 0xa7, 0xb8, 0x10, 0x9d, 0xad, 0x11, 0xd1, 0x80, 0xb4, 0x00, 0xc0, 0x4f, 0xd4, 0x30, 0xc8,
];

/// How much the archive takes: a million bytes a volume, and a million captures.
const LIMITS: Limits = Limits {
    volume_bytes: 1_000_000,
    captures: 1_000_000,
};

/// How many exchanges one connection has at most.
const A_CONNECTION: u32 = 1_000;

/// Stores so many exchanges of a load through connections, brings each capture back, and prints how much the archive then holds.
/// The disk isn't touched.
pub fn trial<D, O: Sink>(alloc: Global, count: u32, seed: u64, disk: D, out: &mut O) -> Ran<D>
    ensures tries { Tries O.Sink count seed out.old out.new result.status }
    ensures same_disk { result.disk ≡ disk }
{
    Ran {
        status: print_trial(alloc, count, seed, out),
        disk,
    }
}

/// Stores a load, brings it back, and prints how much that is, unless there is no memory.
fn print_trial<O: Sink>(alloc: Global, count: u32, seed: u64, out: &mut O) -> Status
    ensures { Tries O.Sink count seed out.old out.new result }
{
    match tried(alloc, count, seed) {
        Ok(text) => print_as(out, text.as_slice(), Status::Done),
        Err(Memory) => Status::Memory,
    }
}

/// Stores a load and brings it back, and tells how much that is.
fn tried(alloc: Global, count: u32, seed: u64) -> Result<Vec<u8>, Memory>
    ensures { IfOk result (λ text. IsTried count seed text.items) }
{
    let mut shelf = new_shelf(alloc, seed)?;
    if fill(alloc, &mut shelf, count, seed) {
        return tell(alloc, shelf.into_shelf(), count);
    }
    Err(Memory)
}

/// A shelf for a load, over a new archive in memory.
fn new_shelf(alloc: Global, seed: u64) -> Result<LoadShelf<Archive<MemoryDisk>>, Memory> {
    let disk = MemoryDisk::new(alloc, Vec::new(alloc));
    let namespace = Some(Uuid::from_bytes(NAMESPACE));
    let archive = match reopen(alloc, disk, namespace, LIMITS, Depth::Whole) {
        Ok(archive) => archive,
        Err(_) => return Err(Memory),
    };
    if archive.counts().volumes == 0 {
        return Ok(LoadShelf::new(archive, seed));
    }
    Err(Memory)
}

/// Stores a load and brings it back, and says whether the shelf has it then.
fn fill<S: Shelf>(alloc: Global, shelf: &mut LoadShelf<S>, count: u32, seed: u64) -> bool
    ensures { IsTrue result → IsTrue S.alone → IsFilled (S.told shelf.new.shelf) seed count count }
{
    if serve_all(alloc, shelf, count, seed).is_err() {
        return false;
    }
    for _ in 0..count {
        if !shelf.replay_next(alloc) {
            return false;
        }
    }
    shelf.is_filled(seed, count)
}

/// Serves the exchanges of a load over connections, one after the other.
fn serve_all<S: Shelf>(alloc: Global, shelf: &mut S, count: u32, seed: u64) -> Result<(), Memory> {
    let site = site(alloc)?;
    let mut from = 0;
    'serving: while from < count {
        let to = if count - from > A_CONNECTION {
            from + A_CONNECTION
        } else {
            count
        };
        serve_part(alloc, shelf, &site, &Part { seed, from, to })?;
        from = to;
    }
    Ok(())
}

/// The site of the archive to which the requests come.
fn site(alloc: Global) -> Result<Site, Memory> {
    Ok(Site {
        base: Text::from_str(alloc, "http://localhost:8080")?,
        host: Text::from_str(alloc, "localhost")?,
        port: 8080,
    })
}

/// The exchanges of a load that one connection has.
#[derive(Drop)]
struct Part {
    /// Which load it is.
    seed: u64,
    /// The number of the first exchange.
    from: u32,
    /// The number behind the last one.
    to: u32,
}

/// Serves the requests of one connection.
fn serve_part<S: Shelf>(
    alloc: Global,
    shelf: &mut S,
    site: &Site,
    part: &Part,
) -> Result<(), Memory> {
    let requests = client(alloc, part.from, part.to)?.into_vec();
    let mut member = member_for(alloc, part)?;
    serve_requests(alloc, shelf, site, requests, &mut member)
}

/// Serves these requests by a member.
fn serve_requests<S: Shelf>(
    alloc: Global,
    shelf: &mut S,
    site: &Site,
    requests: Vec<u8>,
    member: &mut (MemoryDialer, MemoryClock),
) -> Result<(), Memory> {
    let mut client = MemoryLink::new(alloc, requests, Vec::new(alloc));
    let served = serve(
        alloc,
        shelf,
        &mut client,
        &mut member.0,
        &mut member.1,
        site,
    );
    let Served::Done = served else {
        return Err(Memory);
    };
    Ok(())
}

/// A dialer to the origins of exchanges, and a clock with their dates.
fn member_for(alloc: Global, part: &Part) -> Result<(MemoryDialer, MemoryClock), Memory> {
    let dates = dates(alloc, part.from, part.to)?;
    let links = origins(alloc, part.seed, part.from, part.to)?;
    Ok((
        MemoryDialer::new(alloc, links, Vec::new(alloc)),
        MemoryClock::new(dates),
    ))
}

/// The links to the origins of exchanges.
fn origins(alloc: Global, seed: u64, from: u32, to: u32) -> Result<Vec<MemoryLink>, Memory>
    ensures { IfOk result (λ links. All IsNew links.items) }
{
    let mut links = Vec::new(alloc);
    for number in from..to {
        links.push(MemoryLink::new(alloc, response_of(alloc, seed, number)?, Vec::new(alloc)))?;
    }
    Ok(links)
}

/// What the origin of an exchange sends.
fn response_of(alloc: Global, seed: u64, number: u32) -> Result<Vec<u8>, Memory> {
    Ok(origin(alloc, seed, number)?.into_vec())
}

/// What the clock answers to exchanges.
fn dates(alloc: Global, from: u32, to: u32) -> Result<Vec<u64>, Memory> {
    let mut dates = Vec::new(alloc);
    for number in from..to {
        dates.push(date(number))?;
    }
    Ok(dates)
}

/// How much a filled archive holds, of which so many captures were brought back.
fn tell(alloc: Global, archive: Archive<MemoryDisk>, count: u32) -> Result<Vec<u8>, Memory>
    ensures { (seed : ℕ) → IsFilled (told_of ⟦<MemoryDisk as Disk>⟧ archive) seed count count
        → IfOk result (λ text. IsTried count seed text.items) }
{
    if is_due(&archive, count) {
        let counts = archive.counts();
        let bytes = archive.close().byte_sum(Kind::Warc);
        if bytes == u64::MAX {
            return Err(Memory);
        }
        let text = trial_text(alloc, &counts, bytes, count)?;
        return Ok(text);
    }
    Err(Memory)
}

/// Whether an archive has so many captures, and the trial's namespace and volumes.
fn is_due(archive: &Archive<MemoryDisk>, count: u32) -> bool
    ensures captures { IsTrue result → (counts_of archive.now.book).captures ≡ count }
    ensures volume { IsTrue result → archive.now.limits.volume_bytes ≡ trial_volume }
    ensures namespace { IsTrue result → archive.now.book.namespace ≡ trial_namespace }
{
    if archive.counts().captures != count {
        return false;
    }
    if archive.limits().volume_bytes != LIMITS.volume_bytes {
        return false;
    }
    *archive.namespace() == Uuid::from_bytes(NAMESPACE)
}
