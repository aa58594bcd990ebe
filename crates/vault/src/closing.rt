//! How a vault is ended with all its passes.
ghost use Rattle.std.specs.Prelude.{◌≡◌, ◌<◌, List, map, vec_len};
ghost use Rattle.std.specs.List.{All};
ghost use Rattle.warc_journal.specs.Journals.{disk_of};
ghost use Rattle.vault_turns.specs.Calm.{crash_left};
ghost use Rattle.vault.specs.Members.{AreMembers, IsMember};
ghost use Rattle.vault.specs.Sharing.{IsLeftByAll, IsShownIn};
ghost use Rattle.vault_turns.specs.declared.noted.Noted.{Noted};

use crate::naming::Naming;
use crate::pass::VaultPass;
use crate::vault::Vault;
use archive_core::Archive;
use disk_model::Disk;
use std::sync::Wait;

impl<D: Disk> Vault<D> {
    /// Ends the vault with all its passes, in the order of their numbers, and gives the archive back. What its book has behind the one that
    /// was given is shared out among them, and so are the faults that its disk has counted since. Of what a crash leaves, what
    /// was sure when the archive was given is so: that it is the book alone if no pass met a fault, and in any case that the finished checkpoints are the
    /// book's, and that the texts which stood in its volumes stand there. May wait for readers.
    pub fn close_all<R: Wait, J: Naming>(self, rt: &R, passes: Vec<VaultPass>) -> Archive<D>
        requires vault { self ≡ J.vault.lock }
        requires some { 0 < J.vault.passes }
        requires members { AreMembers J.vault passes.items }
        ensures { IsLeftByAll J.vault (map (λ p. p.known) passes.items) result.book result.limits result.told (D.faults (disk_of result.journal)) (crash_left D.Disk result) }
    {
        let all = self.join_all::<J>(passes);
        self.close(rt, all)
    }

    /// One pass for all of these. A history that shows what it has seen shows what each of them has seen.
    fn join_all<J: Naming>(&self, passes: Vec<VaultPass>) -> VaultPass
        requires vault { self.now ≡ J.vault.lock }
        requires some { 0 < vec_len passes }
        requires members { All (λ p. IsMember J.vault p.known) passes.items }
        ensures lock { result.known.lock ≡ J.vault.lock }
        ensures shown { (history : List Noted) → IsShownIn history result → All (IsShownIn history) passes.items }
    {
        let mut rest = passes.into_iter();
        let Some(first) = rest.next() else {
            unreachable!()
        };
        let mut joined = first;
        'joining: while let Some(pass) = rest.next() {
            joined = self.join(joined, pass);
        }
        rest.destroy_empty();
        joined
    }
}
