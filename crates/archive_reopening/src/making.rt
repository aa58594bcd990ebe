//! How an archive is made of what was opened on a disk.
ghost use Rattle.std.specs.Prelude.{◌≡◌, IfErr, IfOk, IsTrue, count_by};
ghost use Rattle.index_entry.specs.OfBook.{AreEntries};
ghost use Rattle.warc_journal.specs.Journals.{disk_of};
ghost use Rattle.archive_shelf.specs.declared.fault.ReopenFault.TheVariants.{Memory as IsMemory};
ghost use Rattle.archive_opening.specs.Opening.{IsUsable};
ghost use Rattle.archive_gathering.specs.Shapes.{AreNumbered};
ghost use Rattle.archive_core.specs.Holdings.{AreLimits};
ghost use Rattle.archive_reopening.specs.Making.{AreFinishedAsTold, IsMadeOf};
ghost use Rattle.archive_volumes.specs.Held.{book_of};
ghost use Rattle.archive_volumes.specs.Spots.{is_same_form};

use archive_core::Archive;
use archive_index::tables_of;
use archive_opening::Opened;
use archive_settling::lined_volumes;
use archive_shelf::ReopenFault;
use archive_volumes::{Spot, Volumes};
use capture::{Limits, Memory};
use disk_model::Disk;
use shown::Shown;
use std::alloc::Global;

/// The archive of what was opened, of whose book it is told what it has, or isn't. A checkpoint whose lines told of captures is known to be
/// finished, so that nobody settles it again.
pub(crate) fn archive_of<D: Disk>(
    alloc: Global,
    opened: Opened<D>,
    limits: Limits,
    told: Shown<bool>,
) -> Result<Archive<D>, (ReopenFault, D)>
    requires limits { AreLimits limits }
    requires usable { IsUsable D.Disk told.value opened }
    requires numbered { AreNumbered opened.gathered }
    requires entries { IsTrue told.value → AreEntries (book_of opened.gathered.held) opened.gathered.entries.items }
    requires finished { IsTrue told.value → AreFinishedAsTold D.Disk opened }
    ensures made { IfOk result (IsMadeOf opened limits told.value) }
    ensures memory { IfErr result (λ refused. refused ≡ (IsMemory, disk_of opened.journal)) }
{
    let Opened { journal, gathered } = opened;
    let (held, spots, digests, entries) = gathered.into_parts();
    let (table, index) = match tables_of(alloc, digests, entries) {
        Ok(tables) => tables,
        Err(Memory) => return Err((ReopenFault::Memory, journal.into_disk())),
    };
    let found = spots.len() as u32;
    let revisits = revisits_among(spots.as_slice()) as u32;
    let sealed = journal.volumes().saturating_sub(1);
    let settled = lined_volumes(spots.as_slice(), sealed);
    Ok(Archive {
        volumes: Volumes::over(journal, held, &told),
        index,
        table,
        spots,
        limits,
        found,
        revisits,
        settled,
        told,
    })
}

/// How many captures refer to an earlier one.
fn revisits_among(spots: &[Spot]) -> usize
    ensures { result ≡ count_by (λ spot. is_same_form spot.form) spots.now }
{
    spots.iter().filter(|spot| spot.form.is_same()).count()
}
