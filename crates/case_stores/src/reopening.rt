//! How an archive is opened, and what that tells.
ghost use Rattle.case_stores.specs.Opening.{IsOpening};

use crate::held::Held;
use crate::terms::Opening;
use archive_reopening::reopen;
use archive_shelf::Depth;
use capture::Memory;
use case_captures::{counts_text, reopen_fault_text};
use case_steps::{Outcome, after};
use disk_model::Disk;
use std::alloc::Global;

/// Opens an archive, read as deep as that, and tells what it holds or why it wasn't opened.
pub fn opened<D: Disk + Drop>(
    alloc: Global,
    outcome: &mut Outcome,
    disk: D,
    opening: &Opening,
    depth: Depth,
) -> Result<Option<Held<D>>, Memory>
    requires { IsOpening opening.now }
{
    let (held, told) = reopened(alloc, disk, opening, depth);
    after(outcome.put_told(alloc, told), Some(held))
}

/// The archive, and what it holds; or the disk, and why it wasn't opened.
pub fn reopened<D: Disk>(
    alloc: Global,
    disk: D,
    opening: &Opening,
    depth: Depth,
) -> (Held<D>, Result<String, Memory>)
    requires { IsOpening opening.now }
{
    match reopen(alloc, disk, opening.namespace, opening.limits, depth) {
        Ok(archive) => {
            let told = counts_text(alloc, archive.counts());
            (Held::Archive(archive), told)
        }
        Err((fault, disk)) => (Held::Disk(disk), reopen_fault_text(alloc, fault)),
    }
}
