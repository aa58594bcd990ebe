//! What lies behind a vault's lock.
ghost use Rattle.std.specs.Prelude.{◌≡◌, IfErr, IfOk, IsTrue, length};
ghost use Rattle.capture.specs.Captures.{captures};
ghost use Rattle.index_entry.specs.OfBook.{AreEntries};
ghost use Rattle.archive_index.specs.Shown.{numbered};
ghost use Rattle.warc_journal.specs.Journals.{disk_of};
ghost use Rattle.warc_text.specs.Sound.{IsSound};
ghost use Rattle.vault_turns.specs.Calm.{HasRightCheckpoints, IsCalm, StaysCalm, StaysRight, StaysStood, StillStands};
ghost use Rattle.vault_turns.specs.Guarded.{Stands};
ghost use Rattle.vault_turns.specs.History.{IsOpening, Names, given_faults, is_told, sure_in, told_book};
ghost use Rattle.vault_turns.specs.Own.{AreCounted};
ghost use Rattle.vault_turns.specs.Taking.{TakesItem};

use crate::gathering::{item_of, tells};
use crate::noted::{Kind, Noted, Sure};
use crate::noting::note;
use archive_core::Archive;
use capture::Memory;
use disk_model::Disk;
use index_snapshot::{Note, Place};
use shown::Shown;
use std::alloc::Global;
use std::marker::Model;
use std::snapshot::Snapshot;
use vault_lists::Item;

/// An archive, and the history of what was done with it, which takes no bytes but its length. A clause sees both.
#[derive(Drop)]
pub(crate) struct Keeping<D: Disk> {
    pub(crate) archive: Archive<D>,
    pub(crate) history: Vec<Snapshot<Noted>>,
}

impl<D: Disk> Model for Keeping<D> {
    ghost use Rattle.std.specs.Prelude.{map};
    ghost use Rattle.warc_journal.specs.Journals.{disk_of};
    ghost use Rattle.vault_turns.specs.Calm.{StaysCalm, StaysRight, StaysStood};
    ghost use Rattle.vault_turns.specs.Guarded.{Guarded, Stands};
    ghost use Rattle.vault_turns.specs.Own.{AreCounted};

    ghost Value = { Guarded D };

    ghost view = { λ k. record { history = map (λ s. s.value) k.history.items; holdings = k.archive } };

    ghost invariant = { λ k. Stands (map (λ s. s.value) k.history.items) k.archive × AreCounted (map (λ s. s.value) k.history.items) (D.faults (disk_of k.archive.journal)) × StaysCalm D.Disk (map (λ s. s.value) k.history.items) k.archive × StaysRight D.Disk (map (λ s. s.value) k.history.items) k.archive × StaysStood D.Disk (map (λ s. s.value) k.history.items) k.archive };
}

impl<D: Disk> Keeping<D> {
    /// An archive, to which no turn has added anything, with the list that is published. At `Err` there was no memory.
    pub(crate) fn begin(
        alloc: Global,
        archive: Archive<D>,
        list: &Note<Item>,
        sure: Shown<Sure>,
    ) -> Result<Keeping<D>, Archive<D>>
        requires calm { IsTrue sure.value.calm → IsCalm D.Disk archive }
        requires right { IsTrue sure.value.right → HasRightCheckpoints D.Disk archive }
        requires lasts { IsTrue sure.value.lasts → StillStands D.Disk sure.value.stood archive }
        ensures opens { IfOk result (λ keeping. IsOpening archive.book archive.limits keeping.history) }
        ensures told { IfOk result (λ keeping. is_told keeping.history ≡ archive.told) }
        ensures given { IfOk result (λ keeping. given_faults keeping.history ≡ D.faults (disk_of archive.journal)) }
        ensures sure { IfOk result (λ keeping. sure_in keeping.history ≡ sure.value) }
        ensures names { IfOk result (λ keeping. Names keeping.history list.now.of) }
        ensures holds { IfOk result (λ keeping. keeping.holdings ≡ archive) }
        ensures err { IfErr result (λ back. back ≡ archive) }
    {
        let Ok(mut history) = Vec::with_capacity(alloc, 1) else {
            return Err(archive);
        };
        let told = tells(&archive);
        let held = Snapshot::of(archive.held());
        history.push_reserved(note(
            0,
            Kind::Opened(
                held,
                archive.limits(),
                told,
                Snapshot::of(list),
                archive.faults(),
                sure,
            ),
        ));
        Ok(Keeping { archive, history })
    }

    /// How many entries the history has.
    pub(crate) fn told(&self) -> u64
        ensures { result ≡ length self.now.history }
    {
        self.history.len() as u64
    }

    /// How many captures there are.
    pub(crate) fn count(&self) -> u32
        ensures { result ≡ length (captures self.now.holdings.book) }
    {
        self.archive.counts().captures
    }

    /// What is appended to the list of the capture with this number, if there is one, and of the book as it is.
    pub(crate) fn item(&self, alloc: Global, number: u32) -> Result<(Item, Place), Memory>
        ensures { IfOk result (λ r. TakesItem (is_told self.now.history) self.now.holdings number r.0 r.1) }
    {
        item_of(alloc, &self.archive, number)
    }

    /// The archive has the book and the limits that the history tells.
    pub(crate) fn stands(&self)
        ensures { Stands self.now.history self.now.holdings }
    {
        let _ = &self.archive;
    }

    /// Where the book is told, the book that the history tells is sound.
    pub(crate) fn stays_sound(&self)
        ensures { IsTrue (is_told self.now.history) → IsSound (told_book self.now.history) }
    {
        self.archive.shows_its_book();
    }

    /// Where the book is told, what the archive shows are its entries.
    pub(crate) fn shows_entries(&self)
        ensures { IsTrue self.now.holdings.told → AreEntries self.now.holdings.book (numbered self.now.holdings.index) }
    {
        self.archive.shows_its_book();
    }

    /// The archive, whose disk has counted the faults that the history tells of.
    pub(crate) fn into_archive(self) -> Archive<D>
        ensures archive { result ≡ self.holdings }
        ensures stands { Stands self.history result }
        ensures counted { AreCounted self.history (D.faults (disk_of result.journal)) }
        ensures calm { StaysCalm D.Disk self.history result }
        ensures right { StaysRight D.Disk self.history result }
        ensures lasts { StaysStood D.Disk self.history result }
    {
        self.archive
    }
}
