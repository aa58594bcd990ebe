//! A pass at its vault, as one of many shelves over an archive.
ghost use mathlib.Core.List.{IsPrefix};
ghost use Rattle.std.specs.Prelude.{◌≡◌, false, IfOk, OnOk};
ghost use Rattle.archive_shelf.specs.Queries.{IsFound};
ghost use Rattle.archive_shelf.specs.Told.{KnowsBook};
ghost use Rattle.vault_lists.specs.Finding.{AreOfKey, AreStarting};
ghost use Rattle.vault_lists.specs.Items.{shown_in};
ghost use Rattle.vault.specs.Company.{contents_at};
ghost use Rattle.vault.specs.Members.{IsMember};

use crate::naming::Naming;
use crate::pass::VaultPass;
use crate::vault::Vault;
use archive_shelf::Finder;
use capture::{Memory, growth_keeps_captures};
use disk_model::Disk;
use index_entry::Entry;
use std::alloc::Global;
use std::marker::{Model, PhantomData};
use surt_key::Key;
use vault_lists::{find_key, find_nearest, find_starting};

/// A pass at the vault of this name. A contract sees it as the pass.
#[derive(Drop)]
pub struct At<'a, R, D: Disk, J: Naming> {
    pub(crate) rt: &'a R,
    pub(crate) vault: &'a Vault<D>,
    pub(crate) pass: VaultPass,
    of: PhantomData<J>,
}

impl<'a, R, D: Disk, J: Naming> Model for At<'a, R, D, J> {
    ghost use Rattle.std.specs.Prelude.{◌≡◌};
    ghost use Rattle.vault.specs.Company.{Passing};
    ghost use Rattle.vault.specs.Members.{IsMember};

    ghost Value = { Passing };

    ghost view = { λ a. a.pass };

    ghost invariant = { λ a. (a.vault.now ≡ J.vault.lock) × IsMember J.vault a.pass.known };
}

impl<'a, R, D: Disk, J: Naming> At<'a, R, D, J> {
    /// The pass at its vault.
    pub fn new(rt: &'a R, vault: &'a Vault<D>, pass: VaultPass) -> At<'a, R, D, J>
        requires vault { vault.now ≡ J.vault.lock }
        requires member { IsMember J.vault pass.known }
        ensures { result ≡ pass }
    {
        At {
            rt,
            vault,
            pass,
            of: PhantomData,
        }
    }

    /// The number that the entries of its turns name.
    pub fn number(&self) -> u32
        ensures { result ≡ self.now.known.number }
    {
        self.pass.number()
    }

    /// The pass, which is one of the vault of this name.
    pub fn into_pass(self) -> VaultPass
        ensures same { result ≡ self.entry }
        ensures member { IsMember J.vault result.known }
    {
        let At {
            rt: _,
            vault: _,
            pass,
            of: _,
        } = self;
        pass
    }
}

impl VaultPass {
    /// The entry of a key that is nearest to a time. Waits for nobody.
    pub(crate) fn nearest(&mut self, key: &Key, time: u64) -> Result<Option<Entry>, Memory>
        ensures known { self.new.known ≡ self.old.known }
        ensures more { IsPrefix self.old.shown.items self.new.shown.items }
        ensures found { IfOk result (λ entry. IsFound (shown_in self.new.shown.items) key.now time entry) }
        ensures knows { OnOk result (KnowsBook false (contents_at self.new)) }
    {
        growth_keeps_captures();
        let VaultPass {
            known: _,
            viewer,
            listed,
        } = self;
        find_nearest(viewer, listed, key, time)
    }

    /// The entries of a key. Waits for nobody.
    pub(crate) fn with_key(&mut self, alloc: Global, key: &Key) -> Result<Vec<Entry>, Memory>
        ensures known { self.new.known ≡ self.old.known }
        ensures more { IsPrefix self.old.shown.items self.new.shown.items }
        ensures found { IfOk result (λ entries. AreOfKey key.now self.new.shown.items entries.items) }
        ensures knows { OnOk result (KnowsBook false (contents_at self.new)) }
    {
        growth_keeps_captures();
        let VaultPass {
            known: _,
            viewer,
            listed,
        } = self;
        find_key(alloc, viewer, listed, key)
    }

    /// The entries whose key begins with these bytes. Waits for nobody.
    pub(crate) fn starting(&mut self, alloc: Global, start: &Key) -> Result<Vec<Entry>, Memory>
        ensures known { self.new.known ≡ self.old.known }
        ensures more { IsPrefix self.old.shown.items self.new.shown.items }
        ensures found { IfOk result (λ entries. AreStarting start.now self.new.shown.items entries.items) }
        ensures knows { OnOk result (KnowsBook false (contents_at self.new)) }
    {
        growth_keeps_captures();
        let VaultPass {
            known: _,
            viewer,
            listed,
        } = self;
        find_starting(alloc, viewer, listed, start)
    }
}

impl<'a, R, D: Disk, J: Naming> Finder for At<'a, R, D, J> {
    ghost use Rattle.std.specs.Prelude.{false};
    ghost use Rattle.vault.specs.Company.{told_at};

    ghost alone = { false };

    ghost told = { λ a. told_at a };

    ghost earlier = { λ a t s book le opened. opened };

    ghost covered_later = { λ a t s le all. all };

    #[tactic(auto, using(crate::proofs::AtLaws::looks_on, crate::proofs::MemberLaws::member_same))]
    fn by_date(&mut self, _alloc: Global, key: &Key, time: u64) -> Result<Option<Entry>, Memory> {
        self.pass.nearest(key, time)
    }

    #[tactic(auto, using(crate::proofs::AtLaws::looks_on, crate::proofs::MemberLaws::member_same))]
    fn map(&mut self, alloc: Global, key: &Key) -> Result<Vec<Entry>, Memory> {
        self.pass.with_key(alloc, key)
    }

    #[tactic(auto, using(crate::proofs::AtLaws::looks_on, crate::proofs::MemberLaws::member_same))]
    fn starting(&mut self, alloc: Global, start: &Key) -> Result<Vec<Entry>, Memory> {
        self.pass.starting(alloc, start)
    }
}
