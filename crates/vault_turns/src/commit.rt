//! The committing turn of a store.
ghost use Rattle.std.specs.Prelude.{◌≡◌, ◌≢◌, MatchBool, true, length};
ghost use Rattle.warc_text.specs.Fits.{Fits};
ghost use Rattle.archive_shelf.specs.Told.{ShowsItsBook};
ghost use Rattle.archive_core.specs.Holdings.{contents_of};
ghost use Rattle.archive_core.specs.Looking.{IsDigestOf, IsRightOf};
ghost use Rattle.archive_core.specs.Stores.{Stores};
ghost use Rattle.archive_core.specs.Told.{told_of};
ghost use Rattle.history_lock.specs.Seen.{Adds};
ghost use Rattle.vault_turns.specs.Guarded.{KeepsShown};
ghost use Rattle.vault_turns.specs.History.{by_of, is_told, told_in};
ghost use Rattle.archive_index.specs.Shown.{numbered};
ghost use Rattle.vault_turns.specs.Turns.{Commits};

use crate::keeping::Keeping;
use crate::noting::note_store;
use crate::published::Published;
use crate::turning::Act;
use archive_core::Archive;
use archive_shelf::{Looked, Receipt, StoreFault};
use capture::{Digest, Taken};
use disk_model::Disk;
use index_snapshot::Note;
use std::alloc::Global;
use std::sync::Wait;
use vault_lists::Item;

/// A capture that is to be stored, whose payload was looked for before: as far as `looked` says, or not at all.
pub struct Commit<'a, 't, R> {
    /// A publication may wait for readers.
    pub rt: &'a R,
    pub alloc: Global,
    pub taken: &'t Taken,
    /// The digest of its payload.
    pub digest: Digest,
    pub looked: Looked,
    /// What the pass has seen of the list that is published.
    pub seen: &'a Note<Item>,
}

impl<'a, 't, R: Wait, D: Disk> Act<D> for Commit<'a, 't, R> {
    ghost use Rattle.warc_text.specs.Fits.{Fits};
    ghost use Rattle.archive_core.specs.Looking.{IsDigestOf, IsRightOf};
    ghost use Rattle.vault_turns.specs.History.{Names, is_told, told_in};
    ghost use Rattle.vault_lists.specs.Items.{shown_in};
    ghost use Rattle.vault_turns.specs.Turns.{Commits};

    type Answer = Result<Receipt, StoreFault>;

    ghost ready = { λ work found. Fits work.taken.now × IsDigestOf work.taken.now work.digest × IsRightOf (told_in (is_told found) found) work.taken.now work.looked × Names found work.seen.now.of };

    ghost does = { λ work tells entries found added answer. Commits tells (shown_in work.seen.now.items) work.taken.now found added answer };

    fn act(self, by: u32, value: &mut Published<D>) -> Result<Receipt, StoreFault> {
        let Commit {
            rt,
            alloc,
            taken,
            digest,
            looked,
            seen,
        } = self;
        let shown = value.has_shown(seen);
        if shown {
            let answer = value.store(by, alloc, taken, &digest, looked);
            value.show(rt);
            return answer;
        }
        value.stays_sound();
        Err(StoreFault::Memory)
    }
}

/// Stores a capture, and says whether a volume was begun for it.
fn stored<D: Disk>(
    archive: &mut Archive<D>,
    alloc: Global,
    taken: &Taken,
    digest: &Digest,
    looked: Looked,
) -> (Result<Receipt, StoreFault>, bool)
    requires fits { Fits taken.now }
    requires digest { IsDigestOf taken.now digest.now }
    requires right { IsRightOf (contents_of archive.old) taken.now looked }
    ensures stores { Stores D.Disk archive.old archive.new taken.now result.0 }
    ensures began { MatchBool result.1 (length archive.new.book.volumes ≢ length archive.old.book.volumes) (length archive.new.book.volumes ≡ length archive.old.book.volumes) }
    ensures shows { ShowsItsBook true (told_of D.Disk archive.new) }
{
    let before = archive.counts().volumes;
    let answer = archive.store_after(alloc, taken, digest, looked);
    let began = archive.counts().volumes != before;
    archive.shows_its_book();
    (answer, began)
}

impl<D: Disk> Keeping<D> {
    /// Stores a capture for the pass of this number. Room in the history is made first, so want of memory leaves all as it was.
    pub(crate) fn commit(
        &mut self,
        by: u32,
        alloc: Global,
        taken: &Taken,
        digest: &Digest,
        looked: Looked,
    ) -> Result<Receipt, StoreFault>
        requires fits { Fits taken.now }
        requires digest { IsDigestOf taken.now digest.now }
        requires right { IsRightOf (told_in (is_told self.old.history) self.old.history) taken.now looked }
        ensures adds { Adds by_of by self.old.history self.new.history (λ added. Commits (is_told self.old.history) (numbered self.old.holdings.index) taken.now self.old.history added result) }
        ensures shows { KeepsShown self.old.holdings self.new.holdings }
    {
        self.archive.shows_its_book();
        if self.history.reserve(2).is_err() {
            return Err(StoreFault::Memory);
        }
        let (answer, began) = stored(&mut self.archive, alloc, taken, digest, looked);
        note_store(&mut self.history, by, taken, began, &answer);
        answer
    }
}
