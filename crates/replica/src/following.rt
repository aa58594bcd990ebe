//! Follows a source: takes its pieces one after the other.
ghost use Rattle.std.specs.Prelude.{◌≡◌, []};
ghost use Rattle.archive_shelf.specs.Answers.{CountsIf};
ghost use Rattle.replica.specs.Following.{HasFollowed, TakesNext, is_outside_stop, is_outside_turn};

use crate::asking::{SourceFault, ask};
use archive_core::Archive;
use archive_pieces::PieceFault;
use archive_taking::take_piece;
use disk_model::Disk;
use exchange::{Target, Window};
use outside::Dialer;
use std::alloc::Global;

/// Why no more pieces were taken before the source had no more.
#[derive(Clone, Copy)]
pub enum Stop {
    /// The source gave none for the capture with this number.
    Source(u32, SourceFault),
    /// What it gave for the capture with this number wasn't taken.
    Piece(u32, PieceFault),
}

/// Takes the pieces of a source, each by its number, from that of the archive's next capture on, until the source has no more. Those that were
/// taken before a stop stay. The window is empty.
pub fn follow_source<D: Disk, N: Dialer>(
    alloc: Global,
    archive: &mut Archive<D>,
    dialer: &mut N,
    window: &mut Window,
    source: &Target,
) -> Result<(), Stop>
    requires { window.old ≡ [] }
    ensures followed { HasFollowed D.Disk source.now N.Link.tells archive.old archive.new (N.links dialer.old) (N.links dialer.new) result }
    ensures counts { CountsIf (is_outside_stop result) (N.faults dialer.old) (N.faults dialer.new) }
{
    'following: loop {
        match take_next(alloc, archive, dialer, window, source) {
            Ok(true) => {}
            Ok(false) => return Ok(()),
            Err(stop) => return Err(stop),
        }
    }
}

/// Asks the source for the piece of the archive's next capture, and takes it. False where the source has no such capture yet.
fn take_next<D: Disk, N: Dialer>(
    alloc: Global,
    archive: &mut Archive<D>,
    dialer: &mut N,
    window: &mut Window,
    source: &Target,
) -> Result<bool, Stop>
    requires { window.old ≡ [] }
    ensures takes { TakesNext D.Disk source.now N.Link.tells archive.old archive.new (N.links dialer.old) (N.links dialer.new) result }
    ensures counts { CountsIf (is_outside_turn result) (N.faults dialer.old) (N.faults dialer.new) }
    ensures window { window.new ≡ [] }
{
    let number = archive.counts().captures;
    let piece = match ask(alloc, dialer, window, source, number) {
        Ok(Some(piece)) => piece,
        Ok(None) => return Ok(false),
        Err(fault) => return Err(Stop::Source(number, fault)),
    };
    match take_piece(alloc, archive, piece.as_slice()) {
        Ok(_) => Ok(true),
        Err(fault) => Err(Stop::Piece(number, fault)),
    }
}
