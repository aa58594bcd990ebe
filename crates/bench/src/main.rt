//! Measures what the crates cost in time and memory. It is run by hand, since no contract speaks of either.
//!
//! The word names a topic. Each line of what it prints is a mean over the items of one loop, and beside a time per byte
//! stands its ratio to a plain loop over the same bytes in the same run.
#![tactic(auto)]

mod copies;
mod digests;
mod groups;
mod heads;
mod index;
mod keys;
mod pages;
mod queries;
mod responses;
mod tables;

use measuring::Stopped;
use std::alloc::Global;
use std::env;
use std::io::Print;
use std::rt::{Clock, Files};

fn main(rt: HostRuntime) -> Result<(), Stopped> {
    let mut words = env::args(&rt)?.skip(1);
    let word = words.next();
    measure(&rt, rt.alloc(), word.as_ref().map(String::as_str))
}

/// Measures a topic. Where the word is none it tells them.
fn measure<R: Clock + Files + Print>(
    rt: &R,
    alloc: Global,
    word: Option<&str>,
) -> Result<(), Stopped> {
    match word {
        Some("digests") => digests::measure(rt, alloc),
        Some("groups") => groups::measure(rt, alloc),
        Some("heads") => heads::measure(rt, alloc),
        Some("index") => index::measure(rt, alloc),
        Some("keys") => keys::measure(rt, alloc),
        Some("pages") => pages::measure(rt, alloc),
        Some("queries") => queries::measure(rt, alloc),
        Some("responses") => responses::measure(rt, alloc),
        Some("tables") => tables::measure(rt, alloc),
        _ => print_usage(rt),
    }
}

fn print_usage<R: Print>(rt: &R) -> Result<(), Stopped> {
    println!(rt;
        "usage: bench TOPIC, which is digests, groups, heads, index, keys, pages, queries, responses or tables"
    )?;
    Ok(())
}
