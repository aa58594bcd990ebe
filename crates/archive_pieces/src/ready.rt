//! A piece that is ready to be written, with all memory that this takes.
ghost use Rattle.std.specs.Prelude.{◌≡◌, ◌-◌, ◌^◌, ◌<◌, IfOk, IsFalse, IsTrue, length};
ghost use Rattle.capture.specs.Captures.{captures};
ghost use Rattle.archive_gathering.specs.Noting.{referring};
ghost use Rattle.archive_volumes.specs.Held.{book_of};
ghost use Rattle.archive_volumes.specs.Volumes.{IsMeasured};
ghost use Rattle.archive_pieces.specs.PieceReady.{IsPastBounds, IsReadyGroup, IsWithinBounds, MakesRoom, MayHold, end_by};

use archive_volumes::{Layout, Prepared, Ready, Spot, StoredGhost, Volumes};
use capture::{Bytes, Kept, Memory, Stored};
use disk_model::Disk;
use std::alloc::Global;
use warc_scan::Group;

/// No request is so long, in bytes.
const REQUEST_BOUND: u64 = 17_179_869_184;

/// No volume's text is so long, in bytes.
const TEXT_BOUND: u64 = 4_611_686_018_427_387_904;

/// Where a group is to begin in its volume's text: where the last one ends, or behind the warcinfo of a volume that is begun.
pub fn end_of(begins: Option<u64>, at: u64, last_len: u64) -> u64
    ensures { result ≡ end_by begins at last_len }
{
    match begins {
        Some(_) => at,
        None => last_len,
    }
}

/// Whether a bound is passed with a group that is to begin there: in the length of its request, or in that of its volume's text.
pub fn passes_bounds(group: &Group, end: u64) -> bool
    ensures within { IsFalse result → IsWithinBounds group.now end }
    ensures past { IsTrue result → IsPastBounds group.now end }
{
    let request = group.stored.request.as_slice().len() as u64;
    if request >= REQUEST_BOUND {
        return true;
    }
    if end >= TEXT_BOUND {
        return true;
    }
    group.len >= TEXT_BOUND - end
}

/// The capture, which refers to this one, if to any.
fn refer(stored: Stored, first: Option<u32>) -> Stored
    ensures { result ≡ referring stored first }
{
    match first {
        None => stored,
        Some(first) => {
            let Stored {
                method,
                uri,
                date,
                request,
                head,
                kept: _,
            } = stored;
            Stored {
                method,
                uri,
                date,
                request,
                head,
                kept: Kept::Same(first),
            }
        }
    }
}

/// A piece's bytes, and the volume that is begun for its capture, if one is.
#[derive(Drop)]
struct Room {
    text: Bytes,
    prepared: Option<Prepared>,
}

/// The capture of a group with all that is to be kept of it, where it refers to this one, if to any.
fn ready_group(group: Group, first: Option<u32>, room: Room) -> Ready
    ensures ready { IsReadyGroup room.text group first result }
    ensures prepared { result.prepared ≡ room.prepared }
{
    let digest = group.digest;
    let layout = Layout {
        record_len: group.first_len,
        head_at: group.head_at,
    };
    let Room { text, prepared } = room;
    let stored = refer(group.stored, first);
    let known = StoredGhost::of(&stored);
    Ready {
        stored: known,
        spot: Spot::of(stored, digest, 0, 0, 0),
        digest,
        group: text,
        layout,
        prepared,
    }
}

/// Room for the capture of a piece: in the last volume, or in one that is to be begun, born at this time. Nothing is written.
fn room_for<D: Disk>(
    alloc: Global,
    volumes: &mut Volumes<D>,
    begins: Option<u64>,
) -> Result<Option<Prepared>, Memory>
    requires measured { IsMeasured volumes.old.journal (book_of volumes.old.held) }
    requires few { length (captures (book_of volumes.old.held)) < 2 ^ 32 - 1 }
    requires holds { MayHold (book_of volumes.old.held) begins }
    ensures room { IfOk result (MakesRoom volumes.old volumes.new begins) }
    ensures book { book_of volumes.new.held ≡ book_of volumes.old.held }
    ensures journal { volumes.new.journal ≡ volumes.old.journal }
{
    match begins {
        Some(born) => {
            let prepared = volumes.prepare(alloc, born)?;
            Ok(Some(prepared))
        }
        None => {
            volumes.held.reserve()?;
            Ok(None)
        }
    }
}

/// The same, with a copy of the piece's bytes.
fn room_with<D: Disk>(
    alloc: Global,
    volumes: &mut Volumes<D>,
    text: &[u8],
    begins: Option<u64>,
) -> Result<Room, Memory>
    requires measured { IsMeasured volumes.old.journal (book_of volumes.old.held) }
    requires few { length (captures (book_of volumes.old.held)) < 2 ^ 32 - 1 }
    requires holds { MayHold (book_of volumes.old.held) begins }
    ensures text { IfOk result (λ room. room.text ≡ text.now) }
    ensures room { IfOk result (λ room. MakesRoom volumes.old volumes.new begins room.prepared) }
    ensures book { book_of volumes.new.held ≡ book_of volumes.old.held }
    ensures journal { volumes.new.journal ≡ volumes.old.journal }
{
    let text = Bytes::of(Vec::from_slice(alloc, text)?);
    let prepared = room_for(alloc, volumes, begins)?;
    Ok(Room { text, prepared })
}

/// The capture of a piece with all memory that it takes to write it, and room for it. Nothing is written.
pub fn make_piece_ready<D: Disk>(
    alloc: Global,
    volumes: &mut Volumes<D>,
    text: &[u8],
    begins: Option<u64>,
    group: Group,
    first: Option<u32>,
) -> Result<Ready, Memory>
    requires measured { IsMeasured volumes.old.journal (book_of volumes.old.held) }
    requires few { length (captures (book_of volumes.old.held)) < 2 ^ 32 - 1 }
    requires holds { MayHold (book_of volumes.old.held) begins }
    ensures ready { IfOk result (IsReadyGroup text.now group first) }
    ensures room { IfOk result (λ ready. MakesRoom volumes.old volumes.new begins ready.prepared) }
    ensures book { book_of volumes.new.held ≡ book_of volumes.old.held }
    ensures journal { volumes.new.journal ≡ volumes.old.journal }
{
    let room = room_with(alloc, volumes, text, begins)?;
    Ok(ready_group(group, first, room))
}
