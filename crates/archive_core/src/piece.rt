//! The piece of a capture by its number.
ghost use Rattle.warc_journal.specs.Journals.{disk_of};
ghost use Rattle.archive_shelf.specs.Answers.{CountsIf, is_bring_fault};
ghost use Rattle.archive_shelf.specs.Digests.{PieceGoesByDigest};
ghost use Rattle.archive_shelf.specs.Pieces.{GivesPiece};
ghost use Rattle.archive_core.specs.Bringing.{PieceTellsKept};
ghost use Rattle.archive_core.specs.Holdings.{contents_of};
ghost use Rattle.archive_core.specs.Looking.{OnlyLooks};

use crate::Archive;
use archive_reading::piece;
use archive_shelf::BringFault;
use capture::Bytes;
use disk_model::Disk;
use std::alloc::Global;

impl<D: Disk> Archive<D> {
    /// The piece of the capture with this number. It is what `piece` of the shelf answers, with all that is said of it.
    pub fn piece_numbered(&mut self, alloc: Global, number: u32) -> Result<Bytes, BringFault>
        ensures gives { GivesPiece (contents_of self.new) number result }
        ensures kept { PieceTellsKept self.old number result }
        ensures digests { PieceGoesByDigest self.new.book number result }
        ensures looks { OnlyLooks D.Disk self.old self.new }
        ensures faults { CountsIf (is_bring_fault result) (D.faults (disk_of self.old.journal)) (D.faults (disk_of self.new.journal)) }
    {
        let count = self.spots.len() as u32;
        if number >= count {
            return Err(BringFault::NoSuch { count });
        }
        piece(
            &self.told,
            alloc,
            &mut self.volumes,
            self.spots.as_slice(),
            number,
        )
    }
}
