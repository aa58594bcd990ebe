//! How an archive takes the piece of another one's next capture.
ghost use Rattle.std.specs.Prelude.{◌<◌, ◌≡◌, IfOk, OnOk, Some, length, vec_len};
ghost use Rattle.std.specs.Vec.{vec_capacity};
ghost use Rattle.capture.specs.Captures.{captures};
ghost use Rattle.warc_journal.specs.Journals.{disk_of, last_len};
ghost use Rattle.warc_scan.specs.Groups.{IsGroup};
ghost use Rattle.archive_shelf.specs.Answers.{CountsIf};
ghost use Rattle.archive_pieces.specs.PieceFaults.{is_take_fault, store_fault_as};
ghost use Rattle.archive_core.specs.Holdings.{IsArchive};
ghost use Rattle.archive_core.specs.Looking.{OnlyLooks};
ghost use Rattle.archive_index.specs.Shown.{numbered};
ghost use Rattle.archive_pieces.specs.PieceOriginals.{IsNextGroup};
ghost use Rattle.archive_pieces.specs.PieceParts.{IsFoundIn};
ghost use Rattle.archive_pieces.specs.PieceReady.{IsWithinBounds, MayHold, RefersSo, end_by, end_in};
ghost use Rattle.archive_taking.specs.TakingPieces.{Puts, ShowDigest, TakesPiece};
ghost use Rattle.archive_taking.specs.steps.Taking.{FindsWithin, HasText, parts_as};

use archive_core::{Archive, revisits_in, storing_has_a_basis};
use archive_gathering::reading_laws;
use archive_index::enter_ready;
use archive_pieces::{
    Found, PieceFault, end_of, make_piece_ready, original_of, passes_bounds, read_piece,
};
use archive_shelf::StoreFault;
use archive_volumes::{Spot, reserve_kept};
use capture::Memory;
use disk_model::Disk;
use revisit_table::Digests;
use std::alloc::Global;
use warc_scan::Group;

/// The fault of a store, as that of taking a piece.
fn fault_of(fault: StoreFault) -> PieceFault
    ensures { result ≡ store_fault_as fault }
{
    match fault {
        StoreFault::Full { count, limit } => PieceFault::Full { count, limit },
        StoreFault::DiskFault => PieceFault::DiskFault,
        StoreFault::Damaged {
            number,
            kept,
            found,
        } => PieceFault::Damaged {
            number,
            kept,
            found,
        },
        StoreFault::Memory => PieceFault::Memory,
    }
}

/// The head of a group's response as it stands in the group's text.
fn head_in<'t>(text: &'t [u8], group: &Group) -> &'t [u8]
    requires { HasText text.now group.now }
    ensures { result.now ≡ group.now.stored.head }
{
    let (_, behind) = text.split_at(group.head_at as usize);
    let (head, _) = behind.split_at(group.stored.head.as_slice().len());
    head
}

/// Makes room for the capture of a group, and gives the group back.
fn with_room(
    alloc: Global,
    spots: &mut Vec<Spot>,
    table: &mut Digests,
    group: Group,
) -> Result<Group, Memory>
    ensures same { IfOk result (λ back. back ≡ group) }
    ensures room { OnOk result (vec_len spots.new < vec_capacity spots.new) }
    ensures reserved { OnOk result (table.new.reserved ≡ Some group.digest) }
    ensures spots { spots.new.items ≡ spots.old.items }
    ensures table { table.new.kept ≡ table.old.kept }
{
    reserve_kept(alloc, spots, table, &group.digest)?;
    Ok(group)
}

/// Takes the piece of the next capture of another archive, of which this one has all captures before. At `NotAPiece` there is no
/// sound book that goes on from this one with it.
pub fn take_piece<D: Disk>(
    alloc: Global,
    archive: &mut Archive<D>,
    bytes: &[u8],
) -> Result<u32, PieceFault>
    ensures { TakesPiece D.Disk archive.old archive.new bytes.now result }
{
    match archive.check_room() {
        Ok(()) => take_read(alloc, archive, bytes),
        Err(fault) => Err(fault_of(fault)),
    }
}

/// The same in an archive that isn't full.
fn take_read<D: Disk>(
    alloc: Global,
    archive: &mut Archive<D>,
    bytes: &[u8],
) -> Result<u32, PieceFault>
    requires { length (captures archive.old.book) < archive.old.limits.captures }
    ensures { TakesPiece D.Disk archive.old archive.new bytes.now result }
{
    let number = archive.spots.len() as u32;
    let volumes = archive.volumes.journal.volumes();
    match read_piece(alloc, &archive.volumes.held, volumes, number, bytes)? {
        Some(found) => take_found(alloc, archive, bytes, found),
        None => Err(PieceFault::NotAPiece),
    }
}

/// The same of a piece that was read.
fn take_found<D: Disk>(
    alloc: Global,
    archive: &mut Archive<D>,
    bytes: &[u8],
    found: Found,
) -> Result<u32, PieceFault>
    requires not_full { length (captures archive.old.book) < archive.old.limits.captures }
    requires read { IsFoundIn archive.old.book bytes.now found }
    ensures { TakesPiece D.Disk archive.old archive.new bytes.now result }
{
    storing_has_a_basis();
    let first = original_in(alloc, archive, &found)?;
    let Found { begins, at, group } = found;
    let (_, text) = bytes.split_at(at as usize);
    put_piece(alloc, archive, text, begins, group, first)
}

/// The capture to which the group of a piece refers that is to be the next one, if it refers to any. One that passes a bound is
/// `NotAPiece`, before anything is read.
fn original_in<D: Disk>(
    alloc: Global,
    archive: &mut Archive<D>,
    found: &Found,
) -> Result<Option<u32>, PieceFault>
    requires { IsNextGroup archive.old.book found.now.group }
    ensures finds { FindsWithin archive.new.told archive.new.book found.now.group (end_by found.now.begins found.now.at (last_len archive.old.journal)) result }
    ensures shown { IfOk result (ShowDigest (numbered archive.old.index) found.now.group.digest) }
    ensures looks { OnlyLooks D.Disk archive.old archive.new }
    ensures was { IsArchive D.Disk archive.old }
    ensures faults { CountsIf (is_take_fault result) (D.faults (disk_of archive.old.journal)) (D.faults (disk_of archive.new.journal)) }
{
    let end = end_of(found.begins, found.at, archive.volumes.journal.last_len());
    if passes_bounds(&found.group, end) {
        return Err(PieceFault::NotAPiece);
    }
    original_of(
        &archive.told,
        alloc,
        &mut archive.volumes,
        archive.spots.as_slice(),
        &archive.table,
        &found.group,
    )
}

/// Writes the capture of a group that is this text, and keeps it. It refers to that one, if to any. All memory is taken before the
/// first write; the entry is taken back where the disk refuses.
fn put_piece<D: Disk>(
    alloc: Global,
    archive: &mut Archive<D>,
    text: &[u8],
    begins: Option<u64>,
    group: Group,
    first: Option<u32>,
) -> Result<u32, PieceFault>
    requires not_full { length (captures archive.old.book) < archive.old.limits.captures }
    requires group { IsGroup archive.old.book.namespace (length (captures archive.old.book)) text.now group }
    requires refers { RefersSo archive.old.told archive.old.book group first }
    requires holds { MayHold archive.old.book begins }
    requires bounds { IsWithinBounds group (end_in archive.old.book (last_len archive.old.journal) begins) }
    ensures puts { Puts D.Disk archive.old archive.new (parts_as text.now group first begins) result }
    ensures faults { CountsIf (is_take_fault result) (D.faults (disk_of archive.old.journal)) (D.faults (disk_of archive.new.journal)) }
{
    storing_has_a_basis();
    reading_laws();
    let number = archive.spots.len() as u32;
    let head = head_in(text, &group);
    let roomed = with_room(alloc, &mut archive.spots, &mut archive.table, group)?;
    let ready = make_piece_ready(alloc, &mut archive.volumes, text, begins, roomed, first)?;
    let at = archive.volumes.record_at(&ready, number);
    let entered = enter_ready(alloc, &mut archive.index, ready, head, at)?;
    match archive.volumes.commit(
        &archive.told,
        &mut archive.spots,
        &mut archive.table,
        entered,
    ) {
        Ok(()) => {
            archive.revisits += revisits_in(first);
            Ok(number)
        }
        Err(_) => {
            archive.index.take_back(number);
            Err(PieceFault::DiskFault)
        }
    }
}
