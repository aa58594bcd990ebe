//! A disk of numbered files in the folder `archive`.
ghost use Rattle.std.specs.Prelude.{◌≡◌, IsTrue, Some, IfOk, IfSome};
ghost use Rattle.folder_model.specs.Times.{moment_of};
ghost use Rattle.folder_disk.specs.Kept.{folder_in, state_in};
ghost use Rattle.folder_disk.specs.Found.{IsAsFound};
ghost use Rattle.held_folder.specs.State.{IsKnown, reading, images, images_since};
ghost use Rattle.held_folder.specs.steps.StateLaws.{reading_counts, no_more, now_counts, now_only, earlier};

use crate::archive_names::FOLDER;
use crate::beginning::find;
use crate::causes::{Causes, told};
use crate::standing::Standing;
use crate::unopened::Unopened;
use capture::Failed;
use disk_model::{Disk, Kind};
use folder_files::FileNames;
use folder_model::Folders;
use std::alloc::Global;
use std::marker::Model;

/// A disk in the folder `archive`, which tells what its files hold where the folder tells what was done in it. The cause of
/// each fault is told.
#[derive(Drop)]
pub struct FolderDisk<S: Folders, N: FileNames> {
    system: S,
    alloc: Global,
    standing: Standing<S, N>,
    faults: u64,
}

impl<S: Folders, N: FileNames> Model for FolderDisk<S, N> {
    ghost use Rattle.std.specs.Prelude.{IsTrue};
    ghost use Rattle.folder_disk.specs.Kept.{Kept};
    ghost use Rattle.folder_disk.specs.Standing.{state_at, AreOpenAt};
    ghost use Rattle.held_folder.specs.State.{IsKnown};

    ghost Value = { Kept S.Folder };

    ghost use Rattle.folder_disk.specs.View.{kept_of};

    ghost view = { λ d. kept_of d };

    ghost invariant = { λ d. IsTrue S.Folder.tells → IsKnown N.name (state_at S.Folder.past d.standing)
        × AreOpenAt N.name S.Folder.name_of S.Folder.past d.standing };
}

impl<S: Folders, N: FileNames> FolderDisk<S, N> {
    /// The disk in that folder of the folder where the program runs, which this process alone has then. Where it isn't there
    /// the disk has no files, and makes it with its first file.
    pub fn open(system: S, alloc: Global) -> Result<FolderDisk<S, N>, Unopened<S>>
    where
        S::Folder: Drop,
        ensures faults { IfOk result (λ disk. disk.faults ≡ 0) }
        ensures found { IsTrue S.Folder.tells → IsTrue (S.alone system) → IfOk result
            (λ disk. IsAsFound N.name (S.found system) (reading N.name (state_in S.Folder.past disk.held))) }
    {
        let mut system = system;
        match find(&mut system, alloc) {
            Ok(standing) => Ok(FolderDisk {
                system,
                alloc,
                standing,
                faults: 0,
            }),
            Err(error) => Err(Unopened { system, error }),
        }
    }

    /// Where the folder is found. It is let go, where it is held, with all that was done in it.
    pub fn close(self) -> S
    where
        S: Drop,
        S::Folder: Drop,
        ensures found { IsTrue S.Folder.tells → IfSome (folder_in self.held) (λ folder. S.found result ≡ Some (S.Folder.past folder)) }
        ensures known { IsTrue S.Folder.tells → IsKnown N.name (state_in S.Folder.past self.held) }
    {
        let FolderDisk {
            system,
            alloc: _,
            standing,
            faults: _,
        } = self;
        match standing.into_folder() {
            Some(folder) => {
                let mut system = system;
                system.let_go(folder);
                system
            }
            None => system,
        }
    }
}

impl<S: Folders + Causes, N: FileNames> Disk for FolderDisk<S, N>
where
    S::Folder: Drop,
{
    ghost tells = { S.Folder.tells };

    ghost reading = { λ d. reading N.name (state_in S.Folder.past d.held) };

    ghost images = { λ d. images S.Folder.tells N.name (state_in S.Folder.past d.held) };

    ghost moment = { λ d. moment_of (state_in S.Folder.past d.held).times };

    ghost images_since = { λ d. images_since S.Folder.tells N.name (state_in S.Folder.past d.held) };

    ghost faults = { λ d. d.faults };

    fn files(&mut self, kind: Kind) -> Result<u32, Failed> {
        let answer = self.standing.files(kind);
        told(
            &mut self.faults,
            &mut self.system,
            FOLDER,
            "count files",
            answer,
        )
    }

    fn create(&mut self, kind: Kind) -> Result<u32, Failed> {
        let answer = self.standing.create(&mut self.system, self.alloc, kind);
        told(
            &mut self.faults,
            &mut self.system,
            FOLDER,
            "make a file",
            answer,
        )
    }

    fn len(&mut self, kind: Kind, file: u32) -> Result<u64, Failed> {
        let answer = self.standing.len(kind, file);
        told(
            &mut self.faults,
            &mut self.system,
            N::path_of(kind, file),
            "ask for its length",
            answer,
        )
    }

    fn read(&mut self, kind: Kind, file: u32, at: u64, into: &mut [u8]) -> Result<(), Failed> {
        let answer = self.standing.read(kind, file, at, into);
        told(
            &mut self.faults,
            &mut self.system,
            N::path_of(kind, file),
            "read",
            answer,
        )
    }

    fn write_at(&mut self, kind: Kind, file: u32, at: u64, bytes: &[u8]) -> Result<(), Failed> {
        let answer = self.standing.write_at(kind, file, at, bytes);
        told(
            &mut self.faults,
            &mut self.system,
            N::path_of(kind, file),
            "write",
            answer,
        )
    }

    fn cut(&mut self, kind: Kind, file: u32, len: u64) -> Result<(), Failed> {
        let answer = self.standing.cut(kind, file, len);
        told(
            &mut self.faults,
            &mut self.system,
            N::path_of(kind, file),
            "cut",
            answer,
        )
    }

    fn sync(&mut self, kind: Kind, file: u32) -> Result<(), Failed> {
        let answer = self.standing.sync(kind, file);
        told(
            &mut self.faults,
            &mut self.system,
            N::path_of(kind, file),
            "sync",
            answer,
        )
    }

    fn faults(&self) -> u64 {
        self.faults
    }

    ghost reading_is_image = { λ d is_told. reading_counts S.Folder.tells N.name (state_in S.Folder.past d.held) is_told };

    ghost no_more_files = { λ d image kind left. no_more S.Folder.tells N.name (state_in S.Folder.past d.held) image kind left };

    ghost now_counts = { λ d t image le left. now_counts S.Folder.tells N.name (state_in S.Folder.past d.held) t image left };

    ghost now_only = { λ d image left. now_only S.Folder.tells N.name (state_in S.Folder.past d.held) image left };

    ghost earlier = { λ d t s image le left. earlier S.Folder.tells N.name (state_in S.Folder.past d.held) t s image le left };
}
