//! A vault round a large archive: what it keeps of a capture, and what a query and a store cost beside the archive alone.
ghost use Rattle.std.specs.Prelude.{◌≡◌, ◌<◌, ◌≤◌};
ghost use Rattle.vault.specs.Members.{IsMember};

use crate::vaults::{begun, take_pass, vault_of};
use archive_core::Archive;
use archive_shelf::{Depth, Finder, Shelf};
use bench_stock::{CONNECTION, Connection, Stock, opened, site};
use capture::Memory;
use disk_model::{Disk, MemoryDisk};
use measuring::{Measured, NOON, Stopped, print_share, resident, shuffled, url_of};
use std::alloc::Global;
use std::io::Print;
use std::marker::Brand;
use std::rt::{Clock, Files};
use std::sync::Wait;
use surt_key::{Key, key_of};
use vault::{At, Naming, Unnamed, Vault, VaultPass};

/// What the archive has.
const STOCK: Stock = Stock {
    volumes: 1,
    captures: 1_000_000,
    body: 100,
};

/// The length past which a volume takes no further capture, in bytes.
const VOLUME: u64 = 1 << 40;

/// How many captures are asked for by date.
const LOOK_UPS: u32 = 100_000;

/// How many passes a server with 16 workers makes.
const PASSES: u32 = 17;

/// What an archive alone takes for it, and for the same a pass of a vault.
#[derive(Drop)]
pub struct Costs {
    found: u64,
    stored: u64,
}

pub fn measure<R: Clock + Files + Print + Wait>(rt: &R, alloc: Global) -> Result<(), Stopped> {
    let keys = keys_of(alloc)?;
    measure_keys(rt, alloc, keys.as_slice())
}

/// Looks these keys up, and stores, in an archive alone and in a vault round it.
fn measure_keys<R: Clock + Files + Print + Wait>(
    rt: &R,
    alloc: Global,
    keys: &[Key],
) -> Result<(), Stopped> {
    let disk = STOCK.disk(alloc)?;
    let before = resident(rt, alloc);
    let mut archive = opened(alloc, disk, VOLUME, Depth::Whole)?;
    let alone = costs_alone(rt, alloc, &mut archive, keys, before);
    let company = costs_in_vault(rt, alloc, archive, keys, before);
    print_costs(rt, alone, company)
}

/// What the keys and a store cost an archive alone. Before it was opened so many bytes were in use.
fn costs_alone<R: Clock + Files + Print, S: Shelf>(
    rt: &R,
    alloc: Global,
    shelf: &mut S,
    keys: &[Key],
    before: u64,
) -> Result<Costs, Stopped> {
    let bytes = resident(rt, alloc).saturating_sub(before);
    print_memory(rt, "memory of a capture of an archive alone", bytes)?;
    costs_of(rt, alloc, shelf, keys, 0)
}

/// What they cost a pass of a vault round the archive.
fn costs_in_vault<R: Clock + Files + Print + Wait>(
    rt: &R,
    alloc: Global,
    archive: Archive<MemoryDisk>,
    keys: &[Key],
    before: u64,
) -> Result<Costs, Stopped> {
    let unnamed = vault_of(rt, alloc, archive, PASSES)?;
    let bytes = resident(rt, alloc).saturating_sub(before);
    let costs = in_vault::<R, MemoryDisk, Brand>(rt, alloc, unnamed, keys);
    behind_memory(rt, bytes, costs)
}

/// These costs, behind a line that tells how many bytes a vault took.
fn behind_memory<R: Print>(
    rt: &R,
    bytes: u64,
    costs: Result<Costs, Stopped>,
) -> Result<Costs, Stopped> {
    let costs = costs?;
    print_memory(rt, "memory of a capture of a vault", bytes)?;
    Ok(costs)
}

/// Prints how many bytes of these are held of a capture.
fn print_memory<R: Print>(rt: &R, what: &str, bytes: u64) -> Result<(), Stopped> {
    let mean = bytes.checked_div(u64::from(STOCK.count())).unwrap_or(0);
    println!(rt; "{what}: {mean} bytes")?;
    Ok(())
}

fn print_costs<R: Print>(
    rt: &R,
    alone: Result<Costs, Stopped>,
    company: Result<Costs, Stopped>,
) -> Result<(), Stopped> {
    print_both(rt, &alone?, &company?)
}

fn print_both<R: Print>(rt: &R, alone: &Costs, company: &Costs) -> Result<(), Stopped> {
    println!(rt;
        "by_date: {} ns in an archive alone, {} ns through a view",
        alone.found / u64::from(LOOK_UPS),
        company.found / u64::from(LOOK_UPS)
    )?;
    print_share(
        rt,
        "by_date through a view, of an archive's own",
        company.found,
        alone.found,
    )?;
    print_stores(rt, alone.stored, company.stored)
}

fn print_stores<R: Print>(rt: &R, alone: u64, company: u64) -> Result<(), Stopped> {
    println!(rt;
        "a store: {} ns in an archive alone, {} ns with its turns and its publication",
        alone / u64::from(CONNECTION),
        company / u64::from(CONNECTION)
    )?;
    print_share(
        rt,
        "a store with its turns and its publication, of one alone",
        company,
        alone,
    )
}

/// Keys that are found, in no order.
fn keys_of(alloc: Global) -> Result<Vec<Key>, Memory> {
    let mut keys = Vec::with_capacity(alloc, LOOK_UPS as usize)?;
    for i in 0..LOOK_UPS {
        let uri = url_of(alloc, shuffled(i, STOCK.count()))?;
        if let Ok(key) = key_of(alloc, uri.as_bytes()) {
            keys.push(key)?;
        }
    }
    Ok(keys)
}

/// What look-ups by date cost a shelf, and what it costs to store over a connection, from this exchange of the load on.
fn costs_of<R: Clock, S: Shelf>(
    rt: &R,
    alloc: Global,
    shelf: &mut S,
    keys: &[Key],
    from: u32,
) -> Result<Costs, Stopped>
    requires { from ≤ 2000000 }
{
    let found = found_by(rt, alloc, shelf, keys)?;
    let stored = stored_from(rt, alloc, shelf, from)?;
    Ok(Costs { found, stored })
}

/// Stores over a connection, from this exchange of the load on, and gives the nanoseconds that this took.
fn stored_from<R: Clock, S: Shelf>(
    rt: &R,
    alloc: Global,
    shelf: &mut S,
    from: u32,
) -> Result<u64, Stopped>
    requires { from ≤ 2000000 }
{
    let site = site(alloc)?;
    let connection = Connection::new(alloc, from)?;
    connection.serve_timed(rt, alloc, shelf, &site)
}

/// Looks all keys up, and gives the nanoseconds that this took.
fn found_by<R: Clock, F: Finder>(
    rt: &R,
    alloc: Global,
    finder: &mut F,
    keys: &[Key],
) -> Result<u64, Stopped> {
    let start = Measured::start(rt)?;
    let found = count_found(alloc, finder, keys);
    let nanos = start.nanos(rt)?;
    if found == keys.len() {
        Ok(nanos)
    } else {
        Err(Stopped::Archive)
    }
}

/// How many of the keys are found.
fn count_found<F: Finder>(alloc: Global, finder: &mut F, keys: &[Key]) -> usize {
    let mut found = 0usize;
    for key in keys {
        if finds(alloc, finder, key) {
            found = found.saturating_add(1);
        }
    }
    found
}

fn finds<F: Finder>(alloc: Global, finder: &mut F, key: &Key) -> bool {
    match finder.by_date(alloc, key, NOON) {
        Ok(found) => found.is_some(),
        Err(_) => false,
    }
}

/// What the same costs a pass of a vault, which is ended then.
fn in_vault<R: Clock + Wait, D: Disk + Drop, J: Naming>(
    rt: &R,
    alloc: Global,
    unnamed: Unnamed<D>,
    keys: &[Key],
) -> Result<Costs, Stopped>
    requires name { unnamed ≡ J.vault }
    requires some { 0 < unnamed.passes }
{
    let (vault, mut passes) = begun::<J, D>(unnamed);
    let pass = take_pass::<J>(&mut passes);
    let (pass, costs) = of_pass::<R, D, J>(rt, alloc, &vault, pass, keys);
    drop(vault.close(rt, pass).close());
    costs
}

fn of_pass<R: Clock + Wait, D: Disk, J: Naming>(
    rt: &R,
    alloc: Global,
    vault: &Vault<D>,
    pass: VaultPass,
    keys: &[Key],
) -> (VaultPass, Result<Costs, Stopped>)
    requires vault { vault.now ≡ J.vault.lock }
    requires member { IsMember J.vault pass.known }
    ensures { result.0.known.lock ≡ J.vault.lock }
{
    let mut at: At<R, D, J> = At::new(rt, vault, pass);
    let costs = costs_of(rt, alloc, &mut at, keys, CONNECTION);
    (at.into_pass(), costs)
}
