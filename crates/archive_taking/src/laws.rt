//! Where the pieces of a source lead an archive.
ghost use Rattle.archive_taking.specs.TakingPieces.{TakenPiecesLeadOn};

use archive_pieces::next_pieces_lead_on;
use disk_model::Disk;

/// Where the archive's book is a beginning of a source's, the piece of the source's next capture isn't refused as none, and whatever the archive answers, its book is a
/// beginning of the source's after it, and so is each book that a crash may leave, at whatever moment it stops the call.
pub fn taken_pieces_lead_on<D: Disk>()
    ensures { TakenPiecesLeadOn D.Disk }
{
    next_pieces_lead_on();
}
