//! Calls of `name_table`.
use capture::Memory;
use case_texts::told;
use name_table::{hop_by_hop_fields, memento_fields};
use std::alloc::Global;

/// Whether no proxy passes on a field of this name.
pub fn is_hop_by_hop(alloc: Global, name: &[u8]) -> Result<Vec<u8>, Memory> {
    truth(alloc, hop_by_hop_fields().has(name))
}

/// Whether a memento keeps a field of this name under its own name.
pub fn is_kept(alloc: Global, name: &[u8]) -> Result<Vec<u8>, Memory> {
    truth(alloc, memento_fields().has(name))
}

fn truth(alloc: Global, is: bool) -> Result<Vec<u8>, Memory> {
    told(alloc, if is { b"true" } else { b"false" })
}
