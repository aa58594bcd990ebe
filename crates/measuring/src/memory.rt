//! How much memory the process holds.
use std::alloc::Global;
use std::fs::File;
use std::io;
use std::rt::Files;

/// The size of a page of memory, in bytes.
const PAGE: u64 = 4096;

/// How many bytes are resident, as the system tells. 0 where it doesn't.
pub fn resident(files: &impl Files, alloc: Global) -> u64 {
    let Ok(file) = File::open(files, "/proc/self/statm") else {
        return 0;
    };
    let Ok(text) = io::read_to_string(alloc, file) else {
        return 0;
    };
    let pages = text.split_whitespace().nth(1);
    let pages = pages.and_then(|word| word.parse::<u64>().ok());
    pages.unwrap_or(0).saturating_mul(PAGE)
}
