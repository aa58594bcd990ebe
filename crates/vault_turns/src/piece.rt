//! A turn that gives a capture as a piece.
ghost use Rattle.archive_index.specs.Shown.{numbered};
ghost use Rattle.history_lock.specs.Seen.{Adds};
ghost use Rattle.vault_turns.specs.Guarded.{KeepsShown};
ghost use Rattle.vault_turns.specs.History.{by_of, is_told};
ghost use Rattle.vault_turns.specs.Turns.{GivesIt};

use crate::bring::is_disk_fault;
use crate::keeping::Keeping;
use crate::noting::note_fault;
use crate::published::Published;
use crate::turning::Act;
use archive_shelf::BringFault;
use capture::Bytes;
use disk_model::Disk;
use std::alloc::Global;

/// The number of a capture that is asked for as a piece.
#[derive(Drop)]
pub struct Piece {
    pub alloc: Global,
    pub number: u32,
}

impl<D: Disk> Act<D> for Piece {
    ghost use Rattle.vault_turns.specs.Turns.{GivesIt};

    type Answer = Result<Bytes, BringFault>;

    ghost ready = { λ work found. Unit {0} };

    ghost does = { λ work tells entries found added answer. GivesIt tells entries work.number found added answer };

    fn act(self, by: u32, value: &mut Published<D>) -> Result<Bytes, BringFault> {
        value.piece(by, self.alloc, self.number)
    }
}

impl<D: Disk> Keeping<D> {
    /// Gives a capture as a piece to the pass of this number. Room in the history is made first.
    pub(crate) fn piece(&mut self, by: u32, alloc: Global, number: u32) -> Result<Bytes, BringFault>
        ensures adds { Adds by_of by self.old.history self.new.history (λ added. GivesIt (is_told self.old.history) (numbered self.new.holdings.index) number self.old.history added result) }
        ensures shows { KeepsShown self.old.holdings self.new.holdings }
    {
        self.archive.shows_its_book();
        if self.history.reserve(1).is_err() {
            return Err(BringFault::Memory);
        }
        let answer = self.archive.piece_numbered(alloc, number);
        self.archive.shows_its_book();
        note_fault(&mut self.history, by, is_disk_fault(&answer));
        answer
    }
}
