//! How a volume is begun that no capture asks for.
ghost use Rattle.time_text.specs.Texts.{InRange};
ghost use Rattle.archive_taking.specs.Rolling.{Rolls};

use archive_core::Archive;
use archive_shelf::{RollFault, entries_gain_what_is_stored, leading_books_grow};
use disk_model::Disk;
use std::alloc::Global;

/// Begins a volume, born at `now` in milliseconds since 1970, where the last one holds a capture. Else it does nothing.
pub fn roll<D: Disk>(alloc: Global, archive: &mut Archive<D>, now: u64) -> Result<(), RollFault>
    requires { InRange now }
    ensures { Rolls D.Disk archive.old archive.new now result }
{
    leading_books_grow();
    entries_gain_what_is_stored();
    if !archive.volumes.held.is_filled() {
        return Ok(());
    }
    let prepared = archive.volumes.prepare(alloc, now)?;
    archive.volumes.begin(&archive.told, prepared)?;
    Ok(())
}
