//! How many of the first volumes are known to be settled when an archive is opened.
ghost use Rattle.std.specs.Prelude.{◌≡◌, ◌≤◌, true, IsTrue, if◌then◌else◌};
ghost use Rattle.archive_settling.specs.Finished.{AreLinedTo};
ghost use Rattle.archive_volumes.specs.Spots.{is_told_form};

use archive_volumes::Spot;

/// How many of the first volumes, up to so many, have a capture that a line alone told of.
pub fn lined_volumes(spots: &[Spot], sealed: u32) -> u32
    ensures few { result ≤ sealed }
    ensures lined { AreLinedTo spots.now result }
{
    let mut rest = spots;
    let mut lined = 0;
    'spots: while let Some((spot, behind)) = rest.split_first() {
        if lined == sealed {
            return lined;
        }
        lined += one_if(is_lined(spot, lined));
        rest = behind;
    }
    lined
}

/// Whether a line alone told of the capture, which is one of this volume.
fn is_lined(spot: &Spot, volume: u32) -> bool
    ensures { IsTrue result → (is_told_form spot.now.form ≡ true) × (spot.now.volume ≡ volume) }
{
    if !spot.form.is_told() {
        return false;
    }
    spot.volume == volume
}

/// One, or none.
pub(crate) fn one_if(is: bool) -> u32
    ensures { result ≡ (if is then 1 else 0) }
{
    match is {
        true => 1,
        false => 0,
    }
}
