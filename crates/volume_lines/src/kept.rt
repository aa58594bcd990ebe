//! Whether a line tells what is kept of its capture.
ghost use Rattle.std.specs.Prelude.{◌≡◌, ◌<◌, IfSome, IsFalse, IsTrue, Some, length, slice_get};
ghost use Rattle.archive_volumes.specs.declared.spot.Spot.{Spot as SpotValue};
ghost use Rattle.volume_lines.specs.OfSpots.{TellsKept, TellsSpot};

use archive_volumes::Spot;
use cdxj_line::Line;

/// Whether a line tells what is kept of a capture: its target, its date, its method and its digest.
fn tells_spot(line: &Line, spot: &Spot) -> bool
    ensures met { IsTrue result → TellsSpot spot.now line.now }
    ensures missed { IsFalse result → TellsSpot spot.now line.now → ⊥ }
{
    if line.date != spot.date {
        return false;
    }
    if line.digest != spot.digest {
        return false;
    }
    if line.url != spot.uri {
        return false;
    }
    line.method.as_slice() == spot.method.as_slice()
}

/// A line, and where its capture's group ends, if it tells what is kept of the capture with this number.
pub(crate) fn if_kept(line: Line, spots: &[Spot], number: u32, end: u64) -> Option<(Line, u64)>
    requires below { number < length spots.now }
    ensures some { IfSome result (λ found. (found.0 ≡ line) × TellsKept spots.now number found.0) }
    ensures same { (spot : SpotValue) → slice_get spots.now number ≡ Some spot → TellsSpot spot line → result ≡ Some (line, end) }
{
    let spot = &spots[number as usize];
    if tells_spot(&line, spot) {
        return Some((line, end));
    }
    None
}
