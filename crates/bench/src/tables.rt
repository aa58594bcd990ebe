//! Tables: what a look-up costs in the table of digests, and in one of names.
ghost use Rattle.std.specs.Prelude.{◌<◌, ◌+◌, All, OnOk};

use capture::{Digest, Memory};
use digest32::payload_digest;
use measuring::{Measured, Stopped, print_beside, time_of};
use name_table::{NameTable, hop_by_hop_fields};
use revisit_table::Digests;
use std::alloc::Global;
use std::io::Print;
use std::rt::Clock;

/// How many captures the table of digests holds, each of a digest of its own.
const CAPTURES: u32 = 1_000_000;

/// How often each of the names is looked up.
const TIMES: u32 = 100_000;

/// Names of fields as they come in requests and responses, of which three are no proxy's to pass on.
static NAMES: [&str; 12] = [
    "Host",
    "User-Agent",
    "Accept",
    "Accept-Encoding",
    "Proxy-Connection",
    "Content-Type",
    "Content-Length",
    "Connection",
    "Last-Modified",
    "Transfer-Encoding",
    "ETag",
    "Cache-Control",
];

pub fn measure<R: Clock + Print>(rt: &R, alloc: Global) -> Result<(), Stopped> {
    measure_digests(rt, alloc)?;
    measure_names(rt, alloc)
}

fn measure_digests<R: Clock + Print>(rt: &R, alloc: Global) -> Result<(), Stopped> {
    let digests = digests_of(alloc)?;
    measure_table(rt, alloc, digests.as_slice())
}

/// Looks each of these digests up in a table of all.
fn measure_table<R: Clock + Print>(
    rt: &R,
    alloc: Global,
    digests: &[Digest],
) -> Result<(), Stopped> {
    let table = table_of(alloc, digests)?;
    look_up(rt, alloc, &table, digests)
}

/// Looks each of these digests up in this table.
fn look_up<R: Clock + Print>(
    rt: &R,
    alloc: Global,
    table: &Digests,
    digests: &[Digest],
) -> Result<(), Stopped> {
    let start = Measured::start(rt)?;
    let found = captures_found(table, digests);
    let nanos = start.nanos(rt)?;
    let plain = time_of_plain(rt, alloc, digests)?;
    print_beside(
        rt,
        "a digest looked up among 1,000,000",
        found,
        nanos,
        plain,
    )
}

/// How many captures of these digests the table has.
fn captures_found(table: &Digests, digests: &[Digest]) -> u64 {
    let mut found = 0u64;
    for digest in digests {
        found = found.saturating_add(table.candidates(digest).len() as u64);
    }
    found
}

/// The nanoseconds that a plain loop over the bytes of these digests takes.
fn time_of_plain<R: Clock + Print>(
    rt: &R,
    alloc: Global,
    digests: &[Digest],
) -> Result<u64, Stopped> {
    let text = joined(alloc, digests)?;
    time_of(rt, text.as_slice(), 1)
}

/// Digests in no order.
fn digests_of(alloc: Global) -> Result<Vec<Digest>, Memory> {
    let mut digests = Vec::with_capacity(alloc, CAPTURES as usize)?;
    for number in 0..CAPTURES {
        digests.push(payload_digest(&number.to_le_bytes()))?;
    }
    Ok(digests)
}

/// The table in which each digest is that of the capture with its place's number.
fn table_of(alloc: Global, digests: &[Digest]) -> Result<Digests, Memory> {
    let mut table = Digests::new(alloc);
    let mut number = 0u32;
    for digest in digests {
        if number == u32::MAX {
            return Ok(table);
        }
        add_next(alloc, &mut table, digest, number)?;
        number += 1;
    }
    Ok(table)
}

/// Adds a capture whose number is above all that are there.
#[tactic(auto, using(crate::proofs::Numbers::below_next))]
fn add_next(alloc: Global, table: &mut Digests, digest: &Digest, number: u32) -> Result<(), Memory>
    requires { All (λ entry. entry.1 < number) table.old.kept }
    ensures { OnOk result (All (λ entry. entry.1 < number + 1) table.new.kept) }
{
    table.reserve(alloc, digest)?;
    table.add(digest, number);
    Ok(())
}

fn joined(alloc: Global, digests: &[Digest]) -> Result<Vec<u8>, Memory> {
    let mut text = Vec::new(alloc);
    for digest in digests {
        text.extend_from_slice(digest)?;
    }
    Ok(text)
}

fn measure_names<R: Clock + Print>(rt: &R, alloc: Global) -> Result<(), Stopped> {
    let text = joined_names(alloc)?;
    look_up_names(rt, &hop_by_hop_fields(), text.as_slice())
}

/// Looks each of the names up in this table, beside a plain loop over their text.
fn look_up_names<R: Clock + Print>(
    rt: &R,
    table: &NameTable<10>,
    text: &[u8],
) -> Result<(), Stopped> {
    let start = Measured::start(rt)?;
    let found = names_found(table);
    let nanos = start.nanos(rt)?;
    println!(rt; "names that no proxy passes on: {found}")?;
    let plain = time_of(rt, text, TIMES)?;
    let items = u64::from(TIMES).saturating_mul(NAMES.len() as u64);
    print_beside(rt, "a name looked up among 10", items, nanos, plain)
}

/// How often a name was found.
fn names_found(table: &NameTable<10>) -> u64 {
    let mut found = 0u64;
    for _ in 0..TIMES {
        for name in &NAMES {
            found = found.saturating_add(u64::from(table.has(name.as_bytes())));
        }
    }
    found
}

fn joined_names(alloc: Global) -> Result<Vec<u8>, Memory> {
    let mut text = Vec::new(alloc);
    for name in &NAMES {
        text.extend_from_slice(name.as_bytes())?;
    }
    Ok(text)
}
