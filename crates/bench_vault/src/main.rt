//! Measures what a vault round an archive costs in time and memory. It is run by hand, since no contract speaks of either.
//!
//! The word names a topic. Each line of what it prints is a mean over the items of one loop, or the share that one loop's time is of
//! another's in the same run.
#![tactic(auto)]

mod loads;
mod passes;
mod shared;
mod vaults;

use measuring::Stopped;
use std::alloc::Global;
use std::env;
use std::io::Print;
use std::rt::{Clock, Files};
use std::sync::Wait;
use std::thread::Threads;

fn main(rt: HostRuntime) -> Result<(), Stopped> {
    let mut words = env::args(&rt)?.skip(1);
    let word = words.next();
    measure(&rt, rt.alloc(), word.as_ref().map(String::as_str))
}

/// Measures a topic. Where the word is none it tells them.
fn measure<R: Clock + Files + Print + Threads + Wait + Sync>(
    rt: &R,
    alloc: Global,
    word: Option<&str>,
) -> Result<(), Stopped> {
    match word {
        Some("passes") => passes::measure(rt, alloc),
        Some("vault") => shared::measure(rt, alloc),
        _ => print_usage(rt),
    }
}

fn print_usage<R: Print>(rt: &R) -> Result<(), Stopped> {
    println!(rt; "usage: bench_vault TOPIC, which is passes or vault")?;
    Ok(())
}
