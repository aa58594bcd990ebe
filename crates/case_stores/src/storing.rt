//! Steps that store, and what they tell.
ghost use Rattle.warc_text.specs.Fits.{Fits};

use archive_core::Archive;
use archive_shelf::{Looked, RollFault, Shelf};
use archive_taking::roll;
use capture::{Memory, Taken};
use case_captures::{receipt_text, store_fault_text, told_text};
use digest32::payload_digest;
use disk_model::Disk;
use std::alloc::Global;
use time_text::LATEST;

/// `stored` and the capture's number, and behind `as` that of the one that it refers to; or the fault.
pub fn stored<S: Shelf>(alloc: Global, shelf: &mut S, taken: Taken) -> Result<String, Memory>
    requires { Fits taken }
{
    match shelf.store(alloc, &taken) {
        Ok(receipt) => receipt_text(alloc, receipt),
        Err(fault) => store_fault_text(alloc, fault),
    }
}

/// `compared` with the number of captures, and behind `as` the first of them that has the payload; or the fault.
pub fn compared<D: Disk>(
    alloc: Global,
    archive: &mut Archive<D>,
    payload: &[u8],
) -> Result<String, Memory> {
    let digest = payload_digest(payload);
    match archive.compare(alloc, payload, &digest, Looked::none()) {
        Ok(looked) => looked_text(alloc, looked),
        Err(fault) => store_fault_text(alloc, fault),
    }
}

fn looked_text(alloc: Global, looked: Looked) -> Result<String, Memory> {
    let upto = looked.upto;
    match looked.same {
        Some(same) => Ok(format!(in alloc; "compared {upto} as {same}")?),
        None => Ok(format!(in alloc; "compared {upto}")?),
    }
}

/// `rolled`, or the fault. `None` where a record can't have the date.
pub fn rolled<D: Disk>(
    alloc: Global,
    archive: &mut Archive<D>,
    now: u64,
) -> Result<Option<Vec<u8>>, Memory> {
    if now > LATEST {
        return Ok(None);
    }
    match roll(alloc, archive, now) {
        Ok(()) => told_text(written(alloc, "rolled")),
        Err(RollFault::DiskFault) => told_text(written(alloc, "DiskFault")),
        Err(RollFault::Memory) => Err(Memory),
    }
}

fn written(alloc: Global, text: &str) -> Result<String, Memory> {
    Ok(String::from_str(alloc, text)?)
}
