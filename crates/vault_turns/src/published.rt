//! What lies behind a vault's lock.
ghost use Rattle.std.specs.Prelude.{◌≡◌, ◌<◌, ◌≤◌, true, false, length, IfErr, IfOk, IsTrue, OnOk};
ghost use Rattle.std.specs.List.{All};
ghost use Rattle.sha1.specs.Sha1.{sha1};
ghost use Rattle.warc_journal.specs.Journals.{disk_of};
ghost use Rattle.warc_text.specs.Fits.{Fits};
ghost use Rattle.warc_text.specs.Sound.{IsSound};
ghost use Rattle.archive_core.specs.Looking.{IsDigestOf, IsRightOf};
ghost use Rattle.archive_index.specs.Shown.{numbered};
ghost use Rattle.history_lock.specs.Seen.{Adds};
ghost use Rattle.index_snapshot.specs.Entries.{entries_in};
ghost use Rattle.index_snapshot.specs.Publishing.{edge_of, full_of};
ghost use Rattle.vault_lists.specs.Items.{AreItems, brings_of, last_book, shown_in, tells_in};
ghost use Rattle.vault_turns.specs.Calm.{HasRightCheckpoints, IsCalm, StaysCalm, StaysRight, StaysStood, StillStands};
ghost use Rattle.vault_turns.specs.Guarded.{AreShown, Stands};
ghost use Rattle.vault_turns.specs.History.{IsOpening, Names, by_of, given_faults, is_told, sure_in, told_book, told_in};
ghost use Rattle.vault_turns.specs.Listing.{IsListed};
ghost use Rattle.vault_turns.specs.Own.{AreCounted};
ghost use Rattle.vault_turns.specs.Turns.{BringsIt, Commits, Compares, GivesIt, changes};

use crate::gathering::{first_item, gathered};
use crate::keeping::Keeping;
use crate::noted::{Noted, Sure};
use archive_core::Archive;
use archive_shelf::{BringFault, Looked, Receipt, StoreFault};
use capture::{Brought, Bytes, Digest, Memory, Taken, growth_keeps_captures};
use disk_model::Disk;
use history_lock::Told;
use index_snapshot::{Note, Publisher, Viewer, published};
use shown::Shown;
use std::alloc::Global;
use std::marker::Model;
use std::sync::Wait;
use vault_lists::{Books, Item, Listed};

/// An archive with its history, and the publisher of its books. It isn't `Drop`, since a publisher isn't.
pub struct Published<D: Disk> {
    pub(crate) keeping: Keeping<D>,
    publisher: Publisher<Item, Books>,
    /// Whether the list has the archive's book.
    whole: bool,
    /// How many captures the list has.
    appended: u32,
}

impl<D: Disk> Model for Published<D> {
    ghost use Rattle.vault_turns.specs.Guarded.{Publication, Publishes};
    ghost use Rattle.vault_turns.specs.History.{is_told};

    ghost Value = { Publication D };

    ghost view = { λ p. record { kept = p.keeping; print = p.publisher; whole = p.whole } };

    ghost invariant = { λ p. Publishes (is_told p.keeping.history) p.keeping.history p.keeping.holdings p.publisher p.whole p.appended };
}

impl<D: Disk> Told for Published<D> {
    type Entry = Noted;

    ghost list = { λ p. p.kept.history };

    ghost by = { λ noted. noted.by };

    fn told(&self) -> u64 {
        self.keeping.told()
    }
}

/// A publisher of an archive's book, and as many readers. May wait.
fn publisher_of<R: Wait, D: Disk>(
    alloc: Global,
    rt: &R,
    archive: &Archive<D>,
    readers: u32,
) -> Result<(Publisher<Item, Books>, Vec<Viewer<Item, Books>>), Memory>
    requires readers { (0 < readers) × (readers ≤ 17) }
    ensures told { IfOk result (λ r. tells_in r.0.full ≡ archive.now.told) }
    ensures fits { IfOk result (λ r. AreItems r.0.full × (0 < length r.0.full)) }
    ensures book { IfOk result (λ r. last_book r.0.full ≡ archive.now.book) }
    ensures shown { IfOk result (λ r. AreShown (entries_in brings_of r.0.full) archive.now) }
    ensures all { IfOk result (λ r. r.0.published ≡ r.0.full) }
    ensures viewers { IfOk result (λ r. (length r.1.items ≡ readers) × All (λ v. v ≡ edge_of r.0) r.1.items) }
{
    let first = gathered(alloc, archive)?;
    let second = first.again(alloc)?;
    let item = first_item(archive, &first);
    published(alloc, rt, readers as usize, first, second, &item)
}

impl<D: Disk> Published<D> {
    /// An archive, to which no turn has added anything, and as many readers of its book. At `Err` there was no memory. May wait.
    pub fn begin<R: Wait>(
        alloc: Global,
        rt: &R,
        archive: Archive<D>,
        readers: u32,
        sure: Shown<Sure>,
    ) -> Result<(Published<D>, Vec<Viewer<Item, Books>>), Archive<D>>
        requires readers { (0 < readers) × (readers ≤ 17) }
        requires calm { IsTrue sure.value.calm → IsCalm D.Disk archive }
        requires right { IsTrue sure.value.right → HasRightCheckpoints D.Disk archive }
        requires lasts { IsTrue sure.value.lasts → StillStands D.Disk sure.value.stood archive }
        ensures opens { IfOk result (λ r. IsOpening archive.book archive.limits r.0.kept.history) }
        ensures told { IfOk result (λ r. is_told r.0.kept.history ≡ archive.told) }
        ensures given { IfOk result (λ r. given_faults r.0.kept.history ≡ D.faults (disk_of archive.journal)) }
        ensures sure { IfOk result (λ r. sure_in r.0.kept.history ≡ sure.value) }
        ensures book { IfOk result (λ r. (r.0.whole ≡ true) × (last_book r.0.print.full ≡ archive.book)) }
        ensures fits { IfOk result (λ r. AreItems r.0.print.full × (r.0.print.published ≡ r.0.print.full) × (tells_in r.0.print.full ≡ archive.told)) }
        ensures viewers { IfOk result (λ r. (length r.1.items ≡ readers) × All (λ v. v ≡ edge_of r.0.print) r.1.items) }
        ensures holds { IfOk result (λ r. r.0.kept.holdings ≡ archive) }
        ensures err { IfErr result (λ back. back ≡ archive) }
    {
        let (publisher, viewers) = match publisher_of(alloc, rt, &archive, readers) {
            Ok(made) => made,
            Err(Memory) => return Err(archive),
        };
        growth_keeps_captures();
        let appended = archive.counts().captures;
        let list = publisher.note();
        match Keeping::begin(alloc, archive, &list, sure) {
            Ok(keeping) => Ok((
                Published {
                    keeping,
                    publisher,
                    whole: true,
                    appended,
                },
                viewers,
            )),
            Err(archive) => {
                publisher.close(rt);
                Err(archive)
            }
        }
    }

    /// Appends the archive's book to the list, with the entry of its last capture, unless the list has it.
    pub(crate) fn catch_up(&mut self, alloc: Global) -> Result<(), Memory>
        ensures kept { self.new.kept ≡ self.old.kept }
        ensures whole { OnOk result (self.new.whole ≡ true) }
    {
        if self.whole {
            return Ok(());
        }
        growth_keeps_captures();
        let (item, place) = self.keeping.item(alloc, self.appended)?;
        let count = self.keeping.count();
        self.keeping.stands();
        self.publisher.append(&item, place)?;
        self.whole = true;
        self.appended = count;
        Ok(())
    }

    /// Shows readers all that was appended. After want of memory they see what they saw. May wait for readers.
    pub(crate) fn show<R: Wait>(&mut self, rt: &R)
        ensures kept { self.new.kept ≡ self.old.kept }
        ensures whole { self.new.whole ≡ self.old.whole }
    {
        let _shown = self.publisher.publish(rt);
    }

    /// Where the book is told, the book that the history tells is sound.
    pub(crate) fn stays_sound(&self)
        ensures { IsTrue (is_told self.now.kept.history) → IsSound (told_book self.now.kept.history) }
    {
        self.keeping.stays_sound();
    }

    /// All that was appended.
    pub fn tell(&self) -> Listed
        ensures listed { IsListed self.now.kept.history result.note result.whole }
        ensures note { result.note ≡ full_of self.now.print }
    {
        self.keeping.stands();
        self.keeping.shows_entries();
        Listed {
            note: self.publisher.note(),
            whole: self.whole,
        }
    }

    /// Whether this is a beginning of the list that is published: the archive shows then all that it shows.
    pub(crate) fn has_shown(&self, seen: &Note<Item>) -> bool
        requires { Names self.now.kept.history seen.now.of }
        ensures { IsTrue result → AreShown (shown_in seen.now.items) self.now.kept.holdings }
    {
        let all = self.publisher.note();
        seen.begins(&all)
    }

    /// Stores a capture for the pass of this number. The list lacks then what was stored.
    pub(crate) fn commit(
        &mut self,
        by: u32,
        alloc: Global,
        taken: &Taken,
        digest: &Digest,
        looked: Looked,
    ) -> Result<Receipt, StoreFault>
        requires whole { self.old.whole ≡ true }
        requires fits { Fits taken.now }
        requires digest { IsDigestOf taken.now digest.now }
        requires right { IsRightOf (told_in (is_told self.old.kept.history) self.old.kept.history) taken.now looked }
        ensures { Adds by_of by self.old.kept.history self.new.kept.history (λ added. Commits (is_told self.old.kept.history) (numbered self.old.kept.holdings.index) taken.now self.old.kept.history added result) }
    {
        growth_keeps_captures();
        self.keeping.stands();
        let answer = self.keeping.commit(by, alloc, taken, digest, looked);
        self.keeping.stands();
        let changed = may_change(&answer);
        self.whole = !changed;
        answer
    }

    /// Stores a capture for the pass of this number, and appends it to the list. Where an earlier one couldn't be appended yet, that is
    /// done first: so the list never lacks more than one.
    pub(crate) fn store(
        &mut self,
        by: u32,
        alloc: Global,
        taken: &Taken,
        digest: &Digest,
        looked: Looked,
    ) -> Result<Receipt, StoreFault>
        requires fits { Fits taken.now }
        requires digest { IsDigestOf taken.now digest.now }
        requires right { IsRightOf (told_in (is_told self.old.kept.history) self.old.kept.history) taken.now looked }
        ensures { Adds by_of by self.old.kept.history self.new.kept.history (λ added. Commits (is_told self.old.kept.history) (numbered self.old.kept.holdings.index) taken.now self.old.kept.history added result) }
    {
        if self.catch_up(alloc).is_err() {
            self.keeping.stays_sound();
            return Err(StoreFault::Memory);
        }
        let answer = self.commit(by, alloc, taken, digest, looked);
        // What has no memory now is appended before the next store.
        let _appended = self.catch_up(alloc);
        answer
    }

    /// Brings a capture for the pass of this number.
    pub(crate) fn bring(
        &mut self,
        by: u32,
        alloc: Global,
        number: u32,
    ) -> Result<Brought, BringFault>
        ensures { Adds by_of by self.old.kept.history self.new.kept.history (λ added. BringsIt (is_told self.old.kept.history) (entries_in brings_of self.new.print.full) number self.old.kept.history added result) }
    {
        growth_keeps_captures();
        self.keeping.stands();
        let answer = self.keeping.bring(by, alloc, number);
        self.keeping.stands();
        answer
    }

    /// Gives a capture as a piece to the pass of this number.
    pub(crate) fn piece(&mut self, by: u32, alloc: Global, number: u32) -> Result<Bytes, BringFault>
        ensures { Adds by_of by self.old.kept.history self.new.kept.history (λ added. GivesIt (is_told self.old.kept.history) (entries_in brings_of self.new.print.full) number self.old.kept.history added result) }
    {
        growth_keeps_captures();
        self.keeping.stands();
        let answer = self.keeping.piece(by, alloc, number);
        self.keeping.stands();
        answer
    }

    /// Looks for a payload for the pass of this number.
    pub(crate) fn compare(
        &mut self,
        by: u32,
        alloc: Global,
        payload: &[u8],
        digest: &Digest,
    ) -> Result<Looked, StoreFault>
        requires { digest.now ≡ sha1 payload.now }
        ensures { Adds by_of by self.old.kept.history self.new.kept.history (λ added. Compares (is_told self.old.kept.history) payload.now self.old.kept.history added result) }
    {
        growth_keeps_captures();
        self.keeping.stands();
        let answer = self.keeping.compare(by, alloc, payload, digest);
        self.keeping.stands();
        answer
    }

    /// The archive, whose disk has counted the faults that the history tells of. May wait for readers.
    pub fn into_archive<R: Wait>(self, rt: &R) -> Archive<D>
        ensures archive { result ≡ self.kept.holdings }
        ensures stands { Stands self.kept.history result }
        ensures counted { AreCounted self.kept.history (D.faults (disk_of result.journal)) }
        ensures calm { StaysCalm D.Disk self.kept.history result }
        ensures right { StaysRight D.Disk self.kept.history result }
        ensures lasts { StaysStood D.Disk self.kept.history result }
    {
        let Published {
            keeping,
            publisher,
            whole: _,
            appended: _,
        } = self;
        publisher.close(rt);
        keeping.into_archive()
    }
}

/// Whether a store may have changed the book.
fn may_change(answer: &Result<Receipt, StoreFault>) -> bool
    ensures { result ≡ changes answer.now }
{
    match answer {
        Ok(_) => true,
        Err(StoreFault::DiskFault) => true,
        Err(StoreFault::Full { count: _, limit: _ }) => false,
        Err(
            StoreFault::Damaged {
                number: _,
                kept: _,
                found: _,
            },
        ) => false,
        Err(StoreFault::Memory) => false,
    }
}
