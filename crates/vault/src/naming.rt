//! Vaults by their names.
ghost use Rattle.std.specs.Prelude.{◌≡◌, ◌<◌, ◌≤◌, IfErr, IfOk, IsTrue};
ghost use Rattle.warc_journal.specs.Journals.{disk_of};
ghost use Rattle.vault_turns.specs.Calm.{HasRightCheckpoints, IsCalm, StillStands};
ghost use Rattle.vault.specs.Members.{AreNewMembers};

use crate::pass::VaultPass;
use crate::vault::Vault;
use archive_core::Archive;
use disk_model::Disk;
use shown::Shown;
use std::alloc::Global;
use std::marker::{Brand, Model};
use std::sync::Wait;
use vault_turns::Sure;

/// Which vault it is. Each call of a program picks it.
pub trait Naming {
    ghost use Rattle.vault.specs.Members.{VaultName};

    ghost vault: { VaultName };
}

impl Naming for Brand {
    ghost use Rattle.vault.specs.Members.{no_vault};

    ghost vault = { no_vault };
}

/// A vault with its passes, to which no name was given yet. A contract sees the name that it may have. It isn't `Drop`: give it a name.
pub struct Unnamed<D: Disk> {
    vault: Vault<D>,
    passes: Vec<VaultPass>,
}

impl<D: Disk> Model for Unnamed<D> {
    ghost use Rattle.vault.specs.Members.{AreNewMembers, VaultName, name_of};

    ghost Value = { VaultName };

    ghost view = { λ u. name_of u.vault u.passes.items };

    ghost invariant = { λ u. AreNewMembers (name_of u.vault u.passes.items) u.passes.items };
}

impl<D: Disk> Unnamed<D> {
    /// A vault round an archive, and so many passes; `sure` is as `Vault::new` takes it. At `Err` there was no memory, and the archive comes back as it was. May wait.
    pub fn new<R: Wait>(
        alloc: Global,
        rt: &R,
        archive: Archive<D>,
        passes: u32,
        sure: Shown<Sure>,
    ) -> Result<Unnamed<D>, Archive<D>>
        requires passes { (0 < passes) × (passes ≤ 17) }
        requires calm { IsTrue sure.value.calm → IsCalm D.Disk archive }
        requires right { IsTrue sure.value.right → HasRightCheckpoints D.Disk archive }
        requires lasts { IsTrue sure.value.lasts → StillStands D.Disk sure.value.stood archive }
        ensures passes { IfOk result (λ u. u.passes ≡ passes) }
        ensures archive { IfOk result (λ u. (u.book ≡ archive.book) × (u.limits ≡ archive.limits) × (u.tells ≡ archive.told) × (u.faults ≡ D.faults (disk_of archive.journal))) }
        ensures sure { IfOk result (λ u. u.sure ≡ sure.value) }
        ensures err { IfErr result (λ back. back ≡ archive) }
    {
        archive.shows_its_book();
        match Vault::new(alloc, rt, archive, passes, sure) {
            Ok((vault, passes)) => Ok(Unnamed { vault, passes }),
            Err(archive) => Err(archive),
        }
    }

    /// The vault and its passes, in the order of their numbers, under a name.
    pub fn named<J: Naming>(self) -> (Vault<D>, Vec<VaultPass>)
        requires { self ≡ J.vault }
        ensures vault { result.0 ≡ J.vault.lock }
        ensures passes { AreNewMembers J.vault result.1.items }
    {
        let Unnamed { vault, passes } = self;
        (vault, passes)
    }
}
