//! Queries: what it costs to answer one.
use crate::copies::{print_rate, time_of_copy};
use capture::Memory;
use cdx_query::{Query, QueryFault, answer, read_query};
use index_entry::Entry;
use measuring::{Measured, Stopped, entry_of};
use std::alloc::Global;
use std::io::Print;
use std::rt::Clock;

/// How many entries there are, each of a url of its own.
const ENTRIES: u32 = 100_000;

/// How often a query is answered, and its answer copied.
const TIMES: u32 = 10;

/// Queries that all entries meet.
const LINES: &[u8] = b"url=test&matchType=domain&from=2024&to=2024";

const JSON: &[u8] = b"url=test&matchType=domain&from=2024&to=2024&output=json";

pub fn measure<R: Clock + Print>(rt: &R, alloc: Global) -> Result<(), Stopped> {
    let entries = entries_of(alloc)?;
    measure_forms(rt, alloc, entries.as_slice())
}

/// Answers in lines and in JSON.
fn measure_forms<R: Clock + Print>(
    rt: &R,
    alloc: Global,
    entries: &[Entry],
) -> Result<(), Stopped> {
    measure_form(rt, alloc, "lines:", LINES, entries)?;
    measure_form(rt, alloc, "JSON:", JSON, entries)
}

/// Answers the query of this text, behind a line that tells the form of its answer.
fn measure_form<R: Clock + Print>(
    rt: &R,
    alloc: Global,
    form: &str,
    text: &[u8],
    entries: &[Entry],
) -> Result<(), Stopped> {
    println!(rt; "{form}")?;
    let query = query_of(alloc, text)?;
    measure_query(rt, alloc, &query, entries)
}

/// The entries, in order of their keys.
fn entries_of(alloc: Global) -> Result<Vec<Entry>, Memory> {
    let mut entries = Vec::with_capacity(alloc, ENTRIES as usize)?;
    for number in 0..ENTRIES {
        entries.push(entry_of(alloc, number, number)?)?;
    }
    Ok(entries)
}

fn query_of(alloc: Global, text: &[u8]) -> Result<Query, Memory> {
    match read_query(alloc, text) {
        Ok(query) => Ok(query),
        Err(QueryFault::BadQuery | QueryFault::Memory) => Err(Memory),
    }
}

/// Answers a query, and prints the rate and how many times as long it took as a copy of the answer.
fn measure_query<R: Clock + Print>(
    rt: &R,
    alloc: Global,
    query: &Query,
    entries: &[Entry],
) -> Result<(), Stopped> {
    let text = answer(alloc, query, entries)?;
    let taken = answered(rt, alloc, query, entries);
    print_answered(rt, alloc, taken, text.as_slice())
}

/// The nanoseconds that an answer takes.
fn answered<R: Clock + Print>(
    rt: &R,
    alloc: Global,
    query: &Query,
    entries: &[Entry],
) -> Result<u64, Stopped> {
    let start = Measured::start(rt)?;
    for _ in 0..TIMES {
        answer(alloc, query, entries)?;
    }
    start.print(rt, "a query of 100,000 entries answered", u64::from(TIMES))
}

/// Prints the rate of an answer that took so long, and how many times as long that is as a copy.
fn print_answered<R: Clock + Print>(
    rt: &R,
    alloc: Global,
    taken: Result<u64, Stopped>,
    text: &[u8],
) -> Result<(), Stopped> {
    let taken = taken?;
    let copied = time_of_copy(rt, alloc, "the same answer copied", text, TIMES)?;
    print_rate(rt, text.len(), taken, copied)
}
