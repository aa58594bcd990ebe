//! Steps that give the pieces of captures and tell the volumes.
use archive_core::Archive;
use archive_shelf::Shelf;
use archive_volumes::VolumeFacts;
use capture::{Memory, put_all, put_number};
use case_captures::bring_fault_bytes;
use case_texts::put_next_number;
use disk_model::Disk;
use std::alloc::Global;

/// The piece of the capture with this number; or the fault.
pub fn piece_of<S: Shelf>(alloc: Global, shelf: &mut S, number: u32) -> Result<Vec<u8>, Memory> {
    match shelf.piece(alloc, number) {
        Ok(piece) => Ok(Vec::from_slice(alloc, piece.as_slice())?),
        Err(fault) => bring_fault_bytes(alloc, fault),
    }
}

/// The number of each volume, that of its first capture, and how many it has.
pub fn volumes_text<D: Disk>(alloc: Global, archive: &Archive<D>) -> Result<Vec<u8>, Memory> {
    let volumes = archive.volumes(alloc)?;
    let mut out = Vec::new(alloc);
    put_volumes(&mut out, volumes.as_slice())?;
    Ok(out)
}

fn put_volumes(out: &mut Vec<u8>, volumes: &[VolumeFacts]) -> Result<(), Memory> {
    for facts in volumes {
        put_facts(out, facts)?;
    }
    Ok(())
}

/// Puts what is told of a volume, behind a comma where it isn't the first.
fn put_facts(out: &mut Vec<u8>, facts: &VolumeFacts) -> Result<(), Memory> {
    if !out.is_empty() {
        put_all(out, b", ")?;
    }
    put_number(out, u64::from(facts.volume))?;
    put_next_number(out, u64::from(facts.first))?;
    put_next_number(out, u64::from(facts.count))
}
