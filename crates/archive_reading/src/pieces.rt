//! The piece of a capture: its group, with the warcinfo of its volume before it where it is the first of that.
ghost use Rattle.std.specs.Prelude.{◌≡◌, ◌<◌, ℕ, if◌then◌else◌, IfOk, IsFalse, IsTrue, Ok, Err, Some, length, slice_get};
ghost use Rattle.std.specs.Str.{bytes_eq};
ghost use Rattle.warc_journal.specs.Journals.{disk_of};
ghost use Rattle.archive_shelf.specs.Answers.{CountsIf, is_bring_fault};
ghost use Rattle.archive_shelf.specs.Digests.{PieceGoesByDigest};
ghost use Rattle.archive_shelf.specs.Pieces.{IsFirstOf};
ghost use Rattle.archive_reading.specs.Bringing.{OnlyReads};
ghost use Rattle.archive_volumes.specs.Volumes.{CanReadBy};
ghost use Rattle.archive_volumes.specs.Held.{book_of};
ghost use Rattle.archive_reading.specs.KeptGroups.{GivesPieceFrom, HasFront, PieceGoesByKept, bytes_by};
ghost use Rattle.archive_volumes.specs.Spots.{AreSpotsOf};
ghost use Rattle.archive_volumes.specs.declared.spot.Spot.{Spot};
ghost use Rattle.capture.specs.declared.book.Book.{Book};

use crate::kept_group::{KeptGroup, read_group, volume_at};
use archive_shelf::BringFault;
use archive_volumes::{Spot, Volumes};
use capture::{Bytes, Digest, Memory};
use disk_model::Disk;
use shown::Shown;
use std::alloc::Global;
use warc_scan::Outline;
use warc_text::{info_len, put_info};

/// Whether the capture with this number is the first of its volume.
fn is_first(spots: &[Spot], number: u32) -> bool
    requires { number < length spots.now }
    ensures first { IsTrue result → (book : Book) (spot : Spot) → AreSpotsOf book spots.now → slice_get spots.now number ≡ Some spot
        → IsFirstOf book number spot.volume }
    ensures other { IsFalse result → (book : Book) → AreSpotsOf book spots.now → (k : ℕ) → IsFirstOf book number k → ⊥ }
{
    if number == 0 {
        return true;
    }
    let before = volume_at(spots, number as usize - 1);
    let own = volume_at(spots, number as usize);
    before != own
}

/// The digest that is told. The rest is let go.
fn digest_of(outline: Outline) -> Digest
    ensures { result ≡ outline.digest }
{
    outline.digest
}

/// These bytes, where the digest that they tell is the one that is kept; or the one that they tell.
fn bytes_with(kept: &Digest, found: Digest, bytes: Bytes) -> Result<Bytes, Option<Digest>>
    ensures { result ≡ (if bytes_eq found kept.now then Ok bytes else Err (Some found)) }
{
    if found == *kept {
        Ok(bytes)
    } else {
        Err(Some(found))
    }
}

/// The bytes of a group that tells the digest which is kept; or the digest that it tells, and none where there is no group.
fn right_bytes(kept: &Digest, read: KeptGroup) -> Result<Bytes, Option<Digest>>
    ensures { result ≡ bytes_by kept.now read }
{
    match read {
        KeptGroup::Right { bytes, outline } => bytes_with(kept, digest_of(outline), bytes),
        KeptGroup::Damaged => Err(None),
    }
}

/// The group with what stands before it in the piece of its capture.
fn with_front<D: Disk>(
    alloc: Global,
    volumes: &Volumes<D>,
    spots: &[Spot],
    number: u32,
    group: Bytes,
) -> Result<Bytes, Memory>
    requires below { number < length spots.now }
    requires spots { AreSpotsOf (book_of volumes.now.held) spots.now }
    ensures { IfOk result (HasFront (book_of volumes.now.held) number group) }
{
    if !is_first(spots, number) {
        return Ok(group);
    }
    let volume = volume_at(spots, number as usize);
    let born = volumes.held.born(volume);
    let mut piece = Vec::with_capacity(alloc, info_len(volume, born) as usize)?;
    put_info(&mut piece, &volumes.held.namespace, volume, born)?;
    piece.extend_from_slice(group.as_slice())?;
    Ok(Bytes::of(piece))
}

/// The piece of the capture with this number, of those whose spots these are.
pub fn piece<D: Disk>(
    told: &Shown<bool>,
    alloc: Global,
    volumes: &mut Volumes<D>,
    spots: &[Spot],
    number: u32,
) -> Result<Bytes, BringFault>
    requires readable { CanReadBy D.Disk told.now.value volumes.old.journal (book_of volumes.old.held) spots.now }
    requires below { number < length spots.now }
    ensures gives { GivesPieceFrom told.now.value (book_of volumes.old.held) number result }
    ensures kept { (spot : Spot) → slice_get spots.now number ≡ Some spot → PieceGoesByKept (book_of volumes.old.held) number spot.digest result }
    ensures digests { PieceGoesByDigest (book_of volumes.old.held) number result }
    ensures reads { OnlyReads D.Disk volumes.old volumes.new }
    ensures faults { CountsIf (is_bring_fault result) (D.faults (disk_of volumes.old.journal)) (D.faults (disk_of volumes.new.journal)) }
{
    let read = read_group(told, alloc, volumes, spots, number)?;
    let spot = &spots[number as usize];
    match right_bytes(&spot.digest, read) {
        Ok(group) => Ok(with_front(alloc, volumes, spots, number, group)?),
        Err(found) => Err(BringFault::Damaged {
            number,
            kept: spot.digest,
            found,
        }),
    }
}
