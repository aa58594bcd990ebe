//! What a replica promises.
ghost use Rattle.replica.specs.Fronts.{PiecesAreTaken, ReplicasAreFronts, StopsLeaveFronts};

use archive_pieces::next_pieces_lead_on;
use archive_taking::taken_pieces_lead_on;
use disk_model::Disk;

/// A replica that was a front of its source's book is one of the source's last book after each piece that it took, wherever it was stopped, while that
/// book grows; and what it gives of its book isn't refused as no piece. So is each book that a crash may leave, at whatever moment it stops the replica, but those that it
/// might have left before. Of two that are stopped and started, each run is concluded from the one before.
pub fn replicas_are_fronts<D: Disk>()
    ensures fronts { ReplicasAreFronts D.Disk }
    ensures taken { PiecesAreTaken D.Disk }
    ensures left { StopsLeaveFronts D.Disk }
{
    next_pieces_lead_on();
    taken_pieces_lead_on::<D>();
}
