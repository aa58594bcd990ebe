//! Plays cases that are written down in files, and prints what differs from what they expect.
//!
//! Each word of the command line names a file. A line for each file is printed at its end; the status is 0 exactly
//! where every case gave what it expects. This crate's README has the language of the files.
#![tactic(auto)]

mod objects;
mod ran;
mod runs;

use case_outcomes::play_file;
use runs::Memproxy;
use std::process::ExitCode;
use std::{env, fs, io};

fn main(rt: HostRuntime) -> io::Result<ExitCode> {
    let mut all_as_expected = true;
    for name in env::args(&rt)?.skip(1) {
        let text = fs::read_to_string(&rt, name.as_str())?;
        let tally = play_file::<Memproxy, _>(&rt, rt.alloc(), text.as_str())?;
        println!(rt; "{}: {tally}", name)?;
        all_as_expected = all_as_expected && tally.differences == 0;
    }
    Ok(if all_as_expected {
        ExitCode::SUCCESS
    } else {
        ExitCode::FAILURE
    })
}
