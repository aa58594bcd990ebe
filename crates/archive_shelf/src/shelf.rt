//! What captures are stored on and brought from.
ghost use Rattle.warc_text.specs.Fits.{Fits};
ghost use Rattle.archive_shelf.specs.Answers.{Brings, NamesKeeper, is_bring_fault};
ghost use Rattle.archive_shelf.specs.Digests.{GoesByDigest, PieceGoesByDigest};
ghost use Rattle.archive_shelf.specs.Pieces.{GivesPiece};
ghost use Rattle.archive_shelf.specs.Told.{CatchesUp, HoldsJust, ReadsOn, ShowsItsBook, StoresOn};

use crate::{BringFault, Finder, Receipt, StoreFault};
use capture::{Brought, Bytes, Taken};
use std::alloc::Global;

/// Stores captures, and brings them back by their numbers.
pub trait Shelf: Finder {
    /// Stores a capture. It refers to the first earlier one with its payload, where there is one that wasn't cut; a payload
    /// that is empty is kept. Every growth is made before the first write to the disk. The capture stays the caller's.
    fn store(&mut self, alloc: Global, taken: &Taken) -> Result<Receipt, StoreFault>
        requires fits { Fits taken.now }
        ensures stores { StoresOn Self.alone taken.now (Self.told self.old) (Self.told self.new) result }
        ensures just { HoldsJust Self.alone (Self.told self.new) result }
        ensures shows { ShowsItsBook Self.alone (Self.told self.new) };

    /// The capture with this number, with its payload as it was received, also where another capture keeps it.
    fn bring(&mut self, alloc: Global, number: u32) -> Result<Brought, BringFault>
        ensures brings { Brings (Self.told self.new).contents number result }
        ensures names { NamesKeeper (Self.told self.new).contents.seen number result }
        ensures digests { GoesByDigest (Self.told self.new).contents.seen number result }
        ensures reads { ReadsOn Self.alone (is_bring_fault result) (Self.told self.old) (Self.told self.new) }
        ensures shows { ShowsItsBook Self.alone (Self.told self.new) };

    /// The piece of the capture with this number, as another archive takes it: its group as it stands in its volume, with the
    /// volume's warcinfo before it where the capture is the first of that. `Damaged` names the capture itself.
    fn piece(&mut self, alloc: Global, number: u32) -> Result<Bytes, BringFault>
        ensures gives { GivesPiece (Self.told self.new).contents number result }
        ensures digests { PieceGoesByDigest (Self.told self.new).contents.seen number result }
        ensures reads { ReadsOn Self.alone (is_bring_fault result) (Self.told self.old) (Self.told self.new) }
        ensures shows { ShowsItsBook Self.alone (Self.told self.new) };

    /// For a query that met want of memory: what was stored and couldn't be shown by date for that is shown, as far as there is memory now.
    /// Nothing is stored, and the disk isn't asked.
    fn catch_up(&mut self, alloc: Global)
        ensures catches { CatchesUp Self.alone (Self.told self.old) (Self.told self.new) }
        ensures shows { ShowsItsBook Self.alone (Self.told self.new) };
}
