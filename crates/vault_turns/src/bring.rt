//! A turn that brings a capture.
ghost use Rattle.std.specs.Prelude.{◌≡◌};
ghost use Rattle.archive_shelf.specs.Answers.{is_bring_fault};
ghost use Rattle.archive_index.specs.Shown.{numbered};
ghost use Rattle.history_lock.specs.Seen.{Adds};
ghost use Rattle.vault_turns.specs.Guarded.{KeepsShown};
ghost use Rattle.vault_turns.specs.History.{by_of, is_told};
ghost use Rattle.vault_turns.specs.Turns.{BringsIt, held_back};

use crate::keeping::Keeping;
use crate::noting::note_fault;
use crate::published::Published;
use crate::turning::Act;
use archive_shelf::BringFault;
use capture::Brought;
use disk_model::Disk;
use std::alloc::Global;

/// The number of a capture that is to be brought.
#[derive(Drop)]
pub struct Bring {
    pub alloc: Global,
    pub number: u32,
}

impl<D: Disk> Act<D> for Bring {
    ghost use Rattle.vault_turns.specs.Turns.{BringsIt};

    type Answer = Result<Brought, BringFault>;

    ghost ready = { λ work found. Unit {0} };

    ghost does = { λ work tells entries found added answer. BringsIt tells entries work.number found added answer };

    fn act(self, by: u32, value: &mut Published<D>) -> Result<Brought, BringFault> {
        value.bring(by, self.alloc, self.number)
    }
}

impl<D: Disk> Keeping<D> {
    /// Brings a capture for the pass of this number. Room in the history is made first.
    pub(crate) fn bring(
        &mut self,
        by: u32,
        alloc: Global,
        number: u32,
    ) -> Result<Brought, BringFault>
        ensures adds { Adds by_of by self.old.history self.new.history (λ added. BringsIt (is_told self.old.history) (numbered self.new.holdings.index) number self.old.history added result) }
        ensures shows { KeepsShown self.old.holdings self.new.holdings }
    {
        self.archive.shows_its_book();
        if self.history.reserve(1).is_err() {
            return Err(BringFault::Memory);
        }
        let answer = self.archive.bring_numbered(alloc, number);
        self.archive.shows_its_book();
        note_fault(&mut self.history, by, is_disk_fault(&answer));
        answer
    }
}

/// Whether the disk failed.
pub(crate) fn is_disk_fault<T>(answer: &Result<T, BringFault>) -> bool
    ensures { result ≡ is_bring_fault answer.now }
{
    match answer {
        Ok(_) => false,
        Err(BringFault::NoSuch { count: _ }) => false,
        Err(BringFault::DiskFault) => true,
        Err(
            BringFault::Damaged {
                number: _,
                kept: _,
                found: _,
            },
        ) => false,
        Err(BringFault::Memory) => false,
    }
}

/// The answer, where what is shown by date is known to go with it. Else there is said to be no memory, where it would say something of that.
pub fn hold_back<T: Drop>(answer: Result<T, BringFault>, agrees: bool) -> Result<T, BringFault>
    ensures { result ≡ held_back agrees answer }
{
    if agrees {
        return answer;
    }
    match answer {
        Ok(_) => Err(BringFault::Memory),
        Err(BringFault::NoSuch { count: _ }) => Err(BringFault::Memory),
        Err(BringFault::DiskFault) => Err(BringFault::DiskFault),
        Err(
            BringFault::Damaged {
                number,
                kept,
                found,
            },
        ) => Err(BringFault::Damaged {
            number,
            kept,
            found,
        }),
        Err(BringFault::Memory) => Err(BringFault::Memory),
    }
}
