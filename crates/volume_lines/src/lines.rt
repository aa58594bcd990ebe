//! The lines of a volume.
ghost use Rattle.std.specs.Prelude.{◌≡◌, ◌+◌, ◌<◌, ◌≤◌, ◌++◌, ◌∷◌, ◌^◌, [], ℕ, List, IfOk, IfSome, IsSomeAnd, IsTrue, OnOk, length};
ghost use Rattle.capture.specs.Captures.{first_number};
ghost use Rattle.warc_journal.specs.Journals.{disk_of};
ghost use Rattle.warc_text.specs.Books.{IsVolumeText};
ghost use Rattle.archive_shelf.specs.Answers.{CountsIf};
ghost use Rattle.archive_reading.specs.Bringing.{OnlyReads, is_read_fault};
ghost use Rattle.archive_volumes.specs.Volumes.{CanReadBy};
ghost use Rattle.archive_volumes.specs.Held.{book_of};
ghost use Rattle.checkpoint.specs.Checkpoints.{AreLinesFor};
ghost use Rattle.checkpoint.specs.OfVolume.{AreLinesOf};
ghost use Rattle.volume_lines.specs.OfGroups.{CanBeIn, GoesOnBy, IsFactsOf, front_of};
ghost use Rattle.volume_lines.specs.OfSpots.{AreLinesOfSpots, TellsKept};

use crate::kept::if_kept;
use crate::line::line_of;
use crate::sort::sort_lines;
use archive_reading::{KeptGroup, ReadFault, read_group, text_len};
use archive_volumes::{Spot, VolumeFacts, Volumes};
use capture::Memory;
use cdxj_line::Line;
use disk_model::Disk;
use shown::Shown;
use std::alloc::Global;
use surt_key::accepted_targets_have_keys;
use warc_text::info_len;

/// What is walked over: the spots of all captures, and a volume whose text has so many bytes.
#[derive(Clone, Copy)]
struct Walk<'s> {
    spots: &'s [Spot],
    volume: u32,
    end: u64,
}

/// The line of the capture with this number, whose group begins at this place, and where the group ends. None where no such group is
/// there, it doesn't end within the text, it doesn't tell what is kept of the capture, or its target has no key.
fn line_at<D: Disk>(
    told: &Shown<bool>,
    alloc: Global,
    volumes: &mut Volumes<D>,
    walk: Walk,
    number: u32,
    at: u64,
) -> Result<Option<(Line, u64)>, ReadFault>
    requires readable { CanReadBy D.Disk told.now.value volumes.old.journal (book_of volumes.old.held) walk.spots.now }
    requires below { number < length walk.spots.now }
    ensures fit { IfOk result (λ found. IfSome found (λ f. CanBeIn walk.entry.volume number f.0)) }
    ensures kept { IfOk result (λ found. IfSome found (λ f. TellsKept walk.entry.spots.now number f.0)) }
    ensures exact { IsTrue told.now.value → (place : ℕ) (text : List ℕ) (is : IsVolumeText (book_of volumes.old.held) walk.entry.volume text)
        → number ≡ first_number (book_of volumes.old.held) walk.entry.volume + place → place < length is.groups → at ≡ length (front_of is place)
        → length text ≤ walk.entry.end
        → IfOk result (λ found. IsSomeAnd found (λ f. GoesOnBy is place f.0 f.1)) }
    ensures reads { OnlyReads D.Disk volumes.old volumes.new }
    ensures faults { CountsIf (is_read_fault result) (D.faults (disk_of volumes.old.journal)) (D.faults (disk_of volumes.new.journal)) }
{
    accepted_targets_have_keys();
    let KeptGroup::Right { bytes, outline } = read_group(told, alloc, volumes, walk.spots, number)?
    else {
        return Ok(None);
    };
    drop(bytes);
    let len = outline.len;
    if at > walk.end || len > walk.end - at {
        return Ok(None);
    }
    match line_of(alloc, outline, walk.volume, at)? {
        Some(line) => Ok(if_kept(line, walk.spots, number, at + len)),
        None => Ok(None),
    }
}

/// Puts a line behind the others.
fn keep(lines: &mut Vec<Line>, line: Line) -> Result<(), Memory>
    ensures { OnOk result (lines.new.items ≡ lines.old.items ++ line ∷ []) }
{
    lines.push(line)?;
    Ok(())
}

/// The lines of a volume's captures, of those whose spots these are, in the order of a checkpoint. They are read back from the
/// volume's groups, one behind the other. None where a capture's group isn't there any more, doesn't tell what is kept of the capture, doesn't end
/// with the text, or has a target without a key.
pub fn lines_of<D: Disk>(
    told: &Shown<bool>,
    alloc: Global,
    volumes: &mut Volumes<D>,
    spots: &[Spot],
    volume: VolumeFacts,
) -> Result<Option<Vec<Line>>, ReadFault>
    requires readable { CanReadBy D.Disk told.now.value volumes.old.journal (book_of volumes.old.held) spots.now }
    requires there { IsFactsOf (book_of volumes.old.held) volume }
    requires some { 0 < volume.count }
    requires small { volume.first + volume.count < 2 ^ 32 }
    ensures fit { IfOk result (λ lines. IfSome lines (λ lines. AreLinesFor volume.volume lines.items)) }
    ensures of_spots { IfOk result (λ lines. IfSome lines (λ lines. AreLinesOfSpots spots.now volume.first volume.count lines.items)) }
    ensures exact { IsTrue told.now.value → IfOk result (λ found. IsSomeAnd found (λ lines. AreLinesOf (book_of volumes.old.held) volume.volume lines.items)) }
    ensures reads { OnlyReads D.Disk volumes.old volumes.new }
    ensures faults { CountsIf (is_read_fault result) (D.faults (disk_of volumes.old.journal)) (D.faults (disk_of volumes.new.journal)) }
{
    let mut lines = Vec::with_capacity(alloc, volume.count as usize)?;
    let walk = Walk {
        spots,
        volume: volume.volume,
        end: text_len(volumes, volume.volume)?,
    };
    let mut at = info_len(volume.volume, volumes.held.born(volume.volume));
    'captures: for number in volume.first..volume.first + volume.count {
        let Some((line, next)) = line_at(told, alloc, volumes, walk, number, at)? else {
            return Ok(None);
        };
        keep(&mut lines, line)?;
        at = next;
    }
    sort_lines(&mut lines);
    Ok(Some(lines))
}
