//! Passes of one vault that store beside each other, each in a thread of its own, and an archive that one alone stores in.
ghost use Rattle.std.specs.Prelude.{◌≡◌, ◌<◌, ◌≤◌, length};
ghost use Rattle.std.specs.List.{All};
ghost use Rattle.vault.specs.Members.{IsMember};

use crate::loads::{CONNECTIONS, Load, loads_of};
use crate::vaults::{begun, next_pass, take_pass, vault_of};
use archive_shelf::{Depth, Shelf};
use bench_stock::{CONNECTION, opened};
use disk_model::{Disk, MemoryDisk};
use measuring::{Measured, Stopped, print_share};
use std::alloc::Global;
use std::io::Print;
use std::marker::Brand;
use std::rt::Clock;
use std::sync::Wait;
use std::thread::{Threads, for_each_mut};
use vault::{At, Naming, Unnamed, Vault, VaultPass};

/// The length past which a volume takes no further capture, in bytes.
const VOLUME: u64 = 1_000_000_000;

/// A pass at its vault, with the connections that it serves.
#[derive(Drop)]
pub struct Server<'a, R, D: Disk, J: Naming> {
    at: At<'a, R, D, J>,
    load: Load,
    /// Whether each of them was served to its end.
    is_done: bool,
}

impl<'a, R: Wait, D: Disk, J: Naming> Server<'a, R, D, J> {
    fn serve_all(&mut self, alloc: Global) {
        self.is_done = self.load.serve(alloc, &mut self.at);
    }
}

pub fn measure<R: Clock + Print + Threads + Wait + Sync>(
    rt: &R,
    alloc: Global,
) -> Result<(), Stopped> {
    let alone = alone(rt, alloc)?;
    let captures = u64::from(CONNECTIONS * CONNECTION);
    println!(rt;
        "a capture stored in an archive alone: {} ns, {captures} of them",
        alone / captures
    )?;
    measure_passes(rt, alloc, "stores by a pass of a vault, of that", 1, alone)?;
    measure_passes(
        rt,
        alloc,
        "stores by 4 passes in threads, of that",
        4,
        alone,
    )?;
    measure_passes(
        rt,
        alloc,
        "stores by 16 passes in threads, of that",
        16,
        alone,
    )
}

/// Serves all connections by so many passes of a vault, of what an archive alone took.
fn measure_passes<R: Clock + Print + Threads + Wait + Sync>(
    rt: &R,
    alloc: Global,
    what: &str,
    passes: u32,
    alone: u64,
) -> Result<(), Stopped>
    requires { (0 < passes) × (passes ≤ 16) }
{
    let nanos = by_passes(rt, alloc, passes)?;
    print_share(rt, what, nanos, alone)
}

/// Serves all connections over an archive, and gives the nanoseconds that this took.
fn alone<R: Clock>(rt: &R, alloc: Global) -> Result<u64, Stopped> {
    let mut load = Load::new(alloc, 0, CONNECTIONS)?;
    let disk = MemoryDisk::new(alloc, Vec::new(alloc));
    let mut archive = opened(alloc, disk, VOLUME, Depth::Whole)?;
    let nanos = serve_in_turn(rt, alloc, &mut archive, &mut load);
    drop(archive.close());
    nanos
}

/// Serves the connections over a shelf, and gives the nanoseconds that this took.
fn serve_in_turn<R: Clock, S: Shelf>(
    rt: &R,
    alloc: Global,
    shelf: &mut S,
    load: &mut Load,
) -> Result<u64, Stopped> {
    let start = Measured::start(rt)?;
    if load.serve(alloc, shelf) {
        start.nanos(rt)
    } else {
        Err(Stopped::Archive)
    }
}

/// Serves all connections by so many passes of a vault, and gives the nanoseconds that this took.
fn by_passes<R: Clock + Threads + Wait + Sync>(
    rt: &R,
    alloc: Global,
    passes: u32,
) -> Result<u64, Stopped>
    requires { (0 < passes) × (passes ≤ 16) }
{
    let disk = MemoryDisk::new(alloc, Vec::new(alloc));
    let archive = opened(alloc, disk, VOLUME, Depth::Whole)?;
    let unnamed = vault_of(rt, alloc, archive, passes + 1)?;
    served_in::<R, MemoryDisk, Brand>(rt, alloc, unnamed)
}

/// Serves all connections by all passes of a vault but one, which ends it.
fn served_in<R, D, J>(rt: &R, alloc: Global, unnamed: Unnamed<D>) -> Result<u64, Stopped>
where
    R: Clock + Threads + Wait + Sync,
    D: Disk + Send + Drop,
    J: Naming + Send + Sync,
    requires name { unnamed ≡ J.vault }
    requires some { 0 < unnamed.passes }
{
    let (vault, mut passes) = begun::<J, D>(unnamed);
    let last = take_pass::<J>(&mut passes);
    let nanos = served_beside::<R, D, J>(rt, alloc, &vault, &mut passes);
    let archive = vault.close(rt, last);
    let captures = archive.counts().captures;
    drop(archive.close());
    where_all(captures, nanos)
}

/// These nanoseconds, where there are as many captures as all connections store.
fn where_all(captures: u32, nanos: Result<u64, Stopped>) -> Result<u64, Stopped> {
    if captures == CONNECTIONS * CONNECTION {
        nanos
    } else {
        Err(Stopped::Archive)
    }
}

/// Serves all connections by these passes, and gives the nanoseconds that this took.
fn served_beside<R, D, J>(
    rt: &R,
    alloc: Global,
    vault: &Vault<D>,
    passes: &mut Vec<VaultPass>,
) -> Result<u64, Stopped>
where
    R: Clock + Threads + Wait + Sync,
    D: Disk + Send,
    J: Naming + Send + Sync,
    requires vault { vault.now ≡ J.vault.lock }
    requires members { All (λ p. IsMember J.vault p.known) passes.old.items }
{
    let loads = loads_of(alloc, passes.len())?;
    let mut servers = Vec::new(alloc);
    seat_all::<R, D, J>(rt, vault, passes, loads, &mut servers)?;
    serve_beside(rt, alloc, servers.as_mut_slice())
}

/// A server for each load, by the last of these passes.
fn seat_all<'a, R, D: Disk, J: Naming>(
    rt: &'a R,
    vault: &'a Vault<D>,
    passes: &mut Vec<VaultPass>,
    loads: Vec<Load>,
    servers: &mut Vec<Server<'a, R, D, J>>,
) -> Result<(), Stopped>
    requires vault { vault.now ≡ J.vault.lock }
    requires members { All (λ p. IsMember J.vault p.known) passes.old.items }
{
    'seating: for load in loads {
        let Some(pass) = next_pass::<J>(passes) else {
            return Err(Stopped::Archive);
        };
        servers.push(Server {
            at: At::new(rt, vault, pass),
            load,
            is_done: false,
        })?;
    }
    Ok(())
}

/// The nanoseconds that it takes until all of these have served their connections, each in a thread of its own.
fn serve_beside<'a, R, D, J>(
    rt: &R,
    alloc: Global,
    servers: &mut [Server<'a, R, D, J>],
) -> Result<u64, Stopped>
where
    R: Clock + Threads + Wait + Sync,
    D: Disk + Send,
    J: Naming + Send + Sync,
{
    if servers.len() == 0 {
        return Err(Stopped::Archive);
    }
    let start = Measured::start(rt)?;
    serve_in_threads(rt, alloc, servers);
    let nanos = start.nanos(rt)?;
    if are_done(servers) {
        Ok(nanos)
    } else {
        Err(Stopped::Archive)
    }
}

/// Each serves its connections, in a thread of its own.
fn serve_in_threads<'a, R, D, J>(rt: &R, alloc: Global, servers: &mut [Server<'a, R, D, J>])
where
    R: Threads + Wait + Sync,
    D: Disk + Send,
    J: Naming + Send + Sync,
    requires { 0 < length servers.old }
{
    let count = servers.len();
    for_each_mut(rt, servers, count, &|_, server| server.serve_all(alloc));
}

/// Whether each connection was served to its end.
fn are_done<'a, R, D: Disk, J: Naming>(servers: &[Server<'a, R, D, J>]) -> bool {
    for server in servers {
        if !server.is_done {
            return false;
        }
    }
    true
}
