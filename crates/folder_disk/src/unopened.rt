//! What a disk in a folder wasn't made of.
use std::io;

/// Where folders are found, and why the disk's couldn't be held or counted.
#[derive(Drop)]
pub struct Unopened<S> {
    /// Where folders are found.
    pub system: S,
    /// Why it couldn't.
    pub error: io::Error,
}
