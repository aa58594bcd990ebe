//! The vault, and the turns of its passes.
ghost use Rattle.std.specs.Prelude.{◌≡◌, ◌⊎◌, ℕ, ◌+◌, ◌<◌, ◌≤◌, ◌++◌, List, length, slice_get, IfOk, IfErr, IfSome, IsTrue};
ghost use mathlib.Core.List.{IsPrefix};
ghost use Rattle.warc_journal.specs.Journals.{disk_of};
ghost use Rattle.warc_text.specs.Fits.{Fits};
ghost use Rattle.archive_shelf.specs.Answers.{Brings};
ghost use Rattle.archive_shelf.specs.Pieces.{GivesPiece};
ghost use Rattle.history_lock.specs.Known.{IsSamePass};
ghost use Rattle.history_lock.specs.Seen.{Shows, Turn};
ghost use Rattle.vault_lists.specs.Items.{brings_of, shown_in};
ghost use Rattle.vault_turns.specs.Calm.{HasRightCheckpoints, IsCalm, StillStands, crash_left};
ghost use Rattle.vault_turns.specs.History.{IsBegun, KeepsNames, Names, by_of, is_told};
ghost use Rattle.vault.specs.Company.{contents_at};
ghost use Rattle.index_snapshot.specs.Entries.{entries_in};
ghost use Rattle.vault_turns.specs.Listing.{IsListed};
ghost use Rattle.vault.specs.Passes.{IsLeft, IsNew};
ghost use Rattle.vault_turns.specs.Turns.{AddsNone, BringsIt, GivesIt, StoresBy};

use crate::pass::{VaultPass, seat_all};
use archive_core::{Archive, compared_payloads_serve_later, payload_of_taken};
use archive_shelf::{BringFault, Receipt, StoreFault};
use capture::{Brought, Bytes, Memory, Taken, growth_keeps_captures};
use digest32::payload_digest;
use disk_model::Disk;
use history_lock::{HistoryLock, Pass};
use index_snapshot::Note;
use shown::Shown;
use std::alloc::Global;
use std::marker::Model;
use std::sync::Wait;
use vault_lists::{Item, Listed, longer};
use vault_turns::{
    Act, Bring, Commit, FirstAnswer, FirstTurn, Flush, Noted, Piece, Published, Sure, Telling,
    hold_back,
};

/// An archive that several passes share. It isn't `Drop`: end it by `close`. A clause sees which lock it is.
pub struct Vault<D: Disk> {
    lock: HistoryLock<Published<D>>,
}

impl<D: Disk> Model for Vault<D> {
    ghost use Rattle.history_lock.specs.Known.{LockId};

    ghost Value = { LockId };

    ghost view = { λ v. v.lock };
}

impl<D: Disk> Vault<D> {
    /// A vault round an archive, and so many passes, with the numbers from 1 on. Each has seen that the archive was given, and shows
    /// its captures by date. What is sure of a crash now is so at the end: that it leaves the archive's book alone if
    /// the disk didn't fail, and in any case checkpoints of that book alone, and the texts that stood in its volumes. At `Err` there was no memory, and the archive comes back as it was. May wait.
    pub fn new<R: Wait>(
        alloc: Global,
        rt: &R,
        archive: Archive<D>,
        passes: u32,
        sure: Shown<Sure>,
    ) -> Result<(Vault<D>, Vec<VaultPass>), Archive<D>>
        requires passes { (0 < passes) × (passes ≤ 17) }
        requires calm { IsTrue sure.value.calm → IsCalm D.Disk archive }
        requires right { IsTrue sure.value.right → HasRightCheckpoints D.Disk archive }
        requires lasts { IsTrue sure.value.lasts → StillStands D.Disk sure.value.stood archive }
        ensures count { IfOk result (λ r. length r.1.items ≡ passes) }
        ensures each { IfOk result (λ r. (k : ℕ) → IfSome (slice_get r.1.items k) (λ p. IsNew archive.told sure.value (D.faults (disk_of archive.journal)) r.0 passes (k + 1) archive.book archive.limits p)) }
        ensures err { IfErr result (λ back. back ≡ archive) }
    {
        let Ok(mut room) = Vec::with_capacity(alloc, passes as usize) else {
            return Err(archive);
        };
        let (published, mut viewers) = match Published::begin(alloc, rt, archive, passes, sure) {
            Ok(made) => made,
            Err(archive) => return Err(archive),
        };
        growth_keeps_captures();
        let listed = published.tell();
        match HistoryLock::new(alloc, published, passes) {
            Ok((lock, made)) => {
                seat_all(made, &mut viewers, &listed, &mut room);
                Ok((Vault { lock }, room))
            }
            Err(published) => Err(published.into_archive(rt)),
        }
    }

    /// Stores a capture and publishes it. One turn looks for its payload among all captures, and goes on to store it where none has it. Where
    /// one has it, a second turn stores it, and looks only at those that came since. May wait.
    pub fn store<R: Wait>(
        &self,
        rt: &R,
        alloc: Global,
        pass: &mut VaultPass,
        taken: &Taken,
    ) -> Result<Receipt, StoreFault>
        requires pass { pass.old.known.lock ≡ self.now }
        requires fits { Fits taken.now }
        ensures stores { StoresBy (is_told pass.old.known.seen) (shown_in pass.new.shown.items) taken.now pass.old.known pass.new.known result }
        ensures same { IsSamePass pass.old.known pass.new.known }
        ensures shown { pass.new.shown ≡ pass.old.shown }
    {
        let VaultPass {
            known,
            viewer,
            listed,
        } = pass;
        let seen = viewer.note();
        self.store_by(rt, alloc, known, listed, &seen, taken)
    }

    /// Stores a capture for what the lock knows of a pass. What it refers to has to go with what the pass has seen by date. May wait.
    #[tactic(auto, using(crate::proofs::StoreLaws::no_memory, crate::proofs::StoreLaws::committed_later))]
    fn store_by<R: Wait>(
        &self,
        rt: &R,
        alloc: Global,
        pass: &mut Pass<Noted>,
        listed: &mut Listed,
        seen: &Note<Item>,
        taken: &Taken,
    ) -> Result<Receipt, StoreFault>
        requires pass { pass.old.lock ≡ self.now }
        requires listed { IsListed pass.old.seen listed.old.note listed.old.whole }
        requires names { Names pass.old.seen seen.now.of }
        requires fits { Fits taken.now }
        ensures stores { StoresBy (is_told pass.old.seen) (shown_in seen.now.items) taken.now pass.old pass.new result }
        ensures same { IsSamePass pass.old pass.new }
        ensures listed { IsListed pass.new.seen listed.new.note listed.new.whole }
        ensures names { KeepsNames pass.old.seen pass.new.seen }
        ensures told { is_told pass.new.seen ≡ is_told pass.old.seen }
    {
        compared_payloads_serve_later();
        growth_keeps_captures();
        let payload = match payload_of_taken(alloc, taken) {
            Ok(payload) => payload,
            Err(Memory) => return Err(StoreFault::Memory),
        };
        let digest = payload_digest(payload.as_slice());
        let first = FirstTurn {
            rt,
            alloc,
            taken,
            payload,
            digest,
            seen,
        };
        match self.take(rt, pass, listed, first) {
            FirstAnswer::Compared(looked) => {
                let second = Commit {
                    rt,
                    alloc,
                    taken,
                    digest,
                    looked,
                    seen,
                };
                self.take(rt, pass, listed, second)
            }
            FirstAnswer::Whole(answer) => answer,
        }
    }

    /// Brings a capture. May wait.
    pub fn bring<R: Wait>(
        &self,
        rt: &R,
        alloc: Global,
        pass: &mut VaultPass,
        number: u32,
    ) -> Result<Brought, BringFault>
        requires pass { pass.old.known.lock ≡ self.now }
        ensures turn { Turn by_of pass.old.known pass.new.known.seen (λ found added. BringsIt (is_told pass.old.known.seen) (shown_in pass.new.shown.items) number found added result) }
        ensures brings { Brings (contents_at pass.new) number result }
        ensures same { IsSamePass pass.old.known pass.new.known }
        ensures shown { pass.new.shown ≡ pass.old.shown }
    {
        let VaultPass {
            known,
            viewer,
            listed,
        } = pass;
        let note = viewer.note();
        self.bring_beside(rt, alloc, known, listed, &note, number)
    }

    /// Brings a capture for what the lock knows of a pass. What is shown by date has to go with it, so the list that was seen is compared with
    /// the one that the turn tells of. May wait.
    fn bring_beside<R: Wait>(
        &self,
        rt: &R,
        alloc: Global,
        pass: &mut Pass<Noted>,
        listed: &mut Listed,
        shown: &Note<Item>,
        number: u32,
    ) -> Result<Brought, BringFault>
        requires pass { pass.old.lock ≡ self.now }
        requires begun { IsBegun pass.old.seen }
        requires names { Names pass.old.seen shown.now.of }
        ensures turn { Turn by_of pass.old pass.new.seen (λ found added. BringsIt (is_told pass.old.seen) (shown_in shown.now.items) number found added result) }
        ensures brings { Brings (contents_at (record { known = pass.new; shown = shown.now })) number result }
        ensures same { IsSamePass pass.old pass.new }
        ensures listed { IsListed pass.new.seen listed.new.note listed.new.whole }
        ensures names { KeepsNames pass.old.seen pass.new.seen }
        ensures told { is_told pass.new.seen ≡ is_told pass.old.seen }
    {
        let answer = self.take(rt, pass, listed, Bring { alloc, number });
        let agrees = shown.begins(&listed.note);
        hold_back(answer, agrees)
    }

    /// Gives a capture as a piece: its group as it stands in its volume, with the volume's warcinfo before it where the capture is the
    /// first of that. May wait.
    pub fn piece<R: Wait>(
        &self,
        rt: &R,
        alloc: Global,
        pass: &mut VaultPass,
        number: u32,
    ) -> Result<Bytes, BringFault>
        requires pass { pass.old.known.lock ≡ self.now }
        ensures turn { Turn by_of pass.old.known pass.new.known.seen (λ found added. GivesIt (is_told pass.old.known.seen) (shown_in pass.new.shown.items) number found added result) }
        ensures gives { GivesPiece (contents_at pass.new) number result }
        ensures same { IsSamePass pass.old.known pass.new.known }
        ensures shown { pass.new.shown ≡ pass.old.shown }
    {
        let VaultPass {
            known,
            viewer,
            listed,
        } = pass;
        let note = viewer.note();
        self.piece_beside(rt, alloc, known, listed, &note, number)
    }

    /// Gives a capture as a piece for what the lock knows of a pass, where the list that was seen goes with it. May wait.
    fn piece_beside<R: Wait>(
        &self,
        rt: &R,
        alloc: Global,
        pass: &mut Pass<Noted>,
        listed: &mut Listed,
        shown: &Note<Item>,
        number: u32,
    ) -> Result<Bytes, BringFault>
        requires pass { pass.old.lock ≡ self.now }
        requires begun { IsBegun pass.old.seen }
        requires names { Names pass.old.seen shown.now.of }
        ensures turn { Turn by_of pass.old pass.new.seen (λ found added. GivesIt (is_told pass.old.seen) (shown_in shown.now.items) number found added result) }
        ensures gives { GivesPiece (contents_at (record { known = pass.new; shown = shown.now })) number result }
        ensures same { IsSamePass pass.old pass.new }
        ensures listed { IsListed pass.new.seen listed.new.note listed.new.whole }
        ensures names { KeepsNames pass.old.seen pass.new.seen }
        ensures told { is_told pass.new.seen ≡ is_told pass.old.seen }
    {
        let answer = self.take(rt, pass, listed, Piece { alloc, number });
        let agrees = shown.begins(&listed.note);
        hold_back(answer, agrees)
    }

    /// Publishes what is stored, as far as there was no memory for that before. May wait, also for readers.
    pub fn flush<R: Wait>(&self, rt: &R, alloc: Global, pass: &mut VaultPass)
        requires pass { pass.old.known.lock ≡ self.now }
        ensures turn { Turn by_of pass.old.known pass.new.known.seen (λ found added. AddsNone (is_told pass.old.known.seen) found added) }
        ensures same { IsSamePass pass.old.known pass.new.known }
        ensures shown { pass.new.shown ≡ pass.old.shown }
    {
        let VaultPass {
            known,
            viewer: _,
            listed,
        } = pass;
        self.take(rt, known, listed, Flush { rt, alloc });
    }

    /// Does this in a turn, for what the lock knows of a pass. It is told then how the list stands. May wait.
    fn take<R: Wait, A: Act<D>>(
        &self,
        rt: &R,
        pass: &mut Pass<Noted>,
        listed: &mut Listed,
        act: A,
    ) -> A::Answer
        requires pass { pass.old.lock ≡ self.now }
        requires begun { IsBegun pass.old.seen }
        requires ready { (found : List Noted) → Shows by_of pass.old.passes pass.old.numbers pass.old.seen found → A.ready act found }
        ensures turn { Turn by_of pass.old pass.new.seen (λ found added. A.does act (is_told pass.old.seen) (entries_in brings_of listed.new.note.items) found added result) }
        ensures same { IsSamePass pass.old pass.new }
        ensures listed { IsListed pass.new.seen listed.new.note listed.new.whole }
        ensures names { KeepsNames pass.old.seen pass.new.seen }
        ensures told { is_told pass.new.seen ≡ is_told pass.old.seen }
    {
        let (answer, told) = self.lock.turn(rt, pass, Telling { act });
        *listed = told;
        answer
    }

    /// One pass for two, with the number of the first and the numbers of both. It has seen the longer of the two histories, in which
    /// behind the other there is no entry of that other's pass, and by date all that both have seen.
    pub fn join(&self, pass: VaultPass, other: VaultPass) -> VaultPass
        requires pass { pass.known.lock ≡ self.now }
        requires other { other.known.lock ≡ self.now }
        ensures of_vault { result.known.lock ≡ self.now }
        ensures numbers { (result.known.number ≡ pass.known.number) × (result.known.numbers ≡ pass.known.numbers ++ other.known.numbers) × (result.known.passes ≡ pass.known.passes) }
        ensures one { (result.known.seen ≡ pass.known.seen) ⊎ (result.known.seen ≡ other.known.seen) }
        ensures pass { Shows by_of pass.known.passes pass.known.numbers pass.known.seen result.known.seen }
        ensures other { Shows by_of pass.known.passes other.known.numbers other.known.seen result.known.seen }
        ensures shown { IsPrefix pass.shown.items result.shown.items × IsPrefix other.shown.items result.shown.items }
    {
        let VaultPass {
            known,
            viewer,
            listed,
        } = pass;
        let VaultPass {
            known: other,
            viewer: seen,
            listed: told,
        } = other;
        let known = self.lock.join(known, other);
        let mut viewer = viewer;
        viewer.learn(&seen.note());
        VaultPass {
            known,
            viewer,
            listed: longer(listed, told),
        }
    }

    /// Takes a last turn, and gives the archive back. Some history begins with all that the pass had seen, and has behind that entries of
    /// other passes alone; the archive has the book and the limits that it tells, and its disk has counted the faults that it tells of; and
    /// of what a crash leaves, what was sure when the archive was given is so: that it is the book alone if no fault was met, and that the finished
    /// checkpoints are the book's in any case. May wait, also for readers. Passes that are left can't be used any more.
    pub fn close<R: Wait>(self, rt: &R, pass: VaultPass) -> Archive<D>
        requires { pass.known.lock ≡ self }
        ensures { IsLeft pass.known result.book result.limits result.told (D.faults (disk_of result.journal)) (crash_left D.Disk result) }
    {
        let Vault { lock } = self;
        lock.close(rt, pass.into_known()).into_archive(rt)
    }
}
