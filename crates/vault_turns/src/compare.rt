//! How the payload of a capture which is to be stored is looked for.
ghost use Rattle.std.specs.Prelude.{◌≡◌};
ghost use Rattle.sha1.specs.Sha1.{sha1};
ghost use Rattle.history_lock.specs.Seen.{Adds};
ghost use Rattle.archive_payloads.specs.Choosing.{is_look_fault};
ghost use Rattle.vault_turns.specs.Guarded.{KeepsShown};
ghost use Rattle.vault_turns.specs.History.{by_of, is_told};
ghost use Rattle.vault_turns.specs.Turns.{Compares};

use crate::keeping::Keeping;
use crate::noting::note_fault;
use archive_shelf::{Looked, StoreFault};
use capture::Digest;
use disk_model::Disk;
use std::alloc::Global;

impl<D: Disk> Keeping<D> {
    /// Looks for a payload for the pass of this number. Room in the history is made first.
    pub(crate) fn compare(
        &mut self,
        by: u32,
        alloc: Global,
        payload: &[u8],
        digest: &Digest,
    ) -> Result<Looked, StoreFault>
        requires { digest.now ≡ sha1 payload.now }
        ensures adds { Adds by_of by self.old.history self.new.history (λ added. Compares (is_told self.old.history) payload.now self.old.history added result) }
        ensures shows { KeepsShown self.old.holdings self.new.holdings }
    {
        self.archive.shows_its_book();
        if self.history.reserve(1).is_err() {
            return Err(StoreFault::Memory);
        }
        let answer = self.archive.compare(alloc, payload, digest, Looked::none());
        self.archive.shows_its_book();
        note_fault(&mut self.history, by, is_disk_fault(&answer));
        answer
    }
}

/// Whether the disk failed.
fn is_disk_fault(answer: &Result<Looked, StoreFault>) -> bool
    ensures { result ≡ is_look_fault answer.now }
{
    match answer {
        Ok(_) => false,
        Err(StoreFault::DiskFault) => true,
        Err(StoreFault::Full { count: _, limit: _ }) => false,
        Err(
            StoreFault::Damaged {
                number: _,
                kept: _,
                found: _,
            },
        ) => false,
        Err(StoreFault::Memory) => false,
    }
}
