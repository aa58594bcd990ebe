//! A disk of numbered files in the folder `archive`, to be read alone.
ghost use Rattle.std.specs.Prelude.{◌≡◌, ◌<◌, Some, IsTrue, IsErr, IfOk, IfSome, OnOk, length, take, drop};
ghost use Rattle.capture.specs.Faults.{CountsFaults};
ghost use Rattle.disk_model.specs.Image.{file_count, file_of};
ghost use Rattle.folder_disk.specs.Reader.{place_of, past_read, reading_in, images_in, AreOpenToRead, IsReadFrom, StaysRead};
ghost use Rattle.folder_disk.specs.steps.ReaderLaws.{reading_is_read, no_more_read};

use crate::archive_names::FOLDER;
use crate::beginning::check_missing;
use crate::causes::{Causes, told};
use crate::reading::Reading;
use crate::reasons::only_read;
use crate::unopened::Unopened;
use capture::Failed;
use disk_model::{Disk, Kind};
use folder_files::{FileNames, unknown};
use folder_model::{Folder, Folders, Lock};
use std::alloc::Global;
use std::fmt::Display;
use std::io;
use std::marker::Model;

/// A disk in the folder `archive` of a process that only reads, beside others that do. It makes, writes and syncs nothing. It
/// tells what its files hold where the folder tells what was done in it. The cause of each fault is told.
#[derive(Drop)]
pub struct FolderReader<S: Folders, N: FileNames> {
    system: S,
    /// The folder, where it is there. Else it has no files.
    folder: Option<Reading<S::Folder, N>>,
    faults: u64,
}

impl<S: Folders, N: FileNames> Model for FolderReader<S, N> {
    ghost use Rattle.std.specs.Prelude.{IsTrue, IfSome};
    ghost use Rattle.folder_disk.specs.Reader.{KeptToRead, place_of, AreOpenToRead};

    ghost Value = { KeptToRead S.Folder };

    ghost view = { λ d. record { place = place_of d.folder; faults = d.faults } };

    ghost invariant = { λ d. IsTrue S.Folder.tells → IfSome d.folder (AreOpenToRead N.name S.Folder.name_of S.Folder.past) };
}

impl<S: Folders, N: FileNames> FolderReader<S, N> {
    /// The disk in that folder of the folder where the program runs, in which nobody writes as long as the disk is there. It has
    /// all volumes, and the checkpoints before the first that isn't found.
    pub fn open(system: S, alloc: Global) -> Result<FolderReader<S, N>, Unopened<S>>
    where
        S::Folder: Drop,
        ensures faults { IfOk result (λ disk. disk.faults ≡ 0) }
        ensures found { IsTrue S.Folder.tells → IsTrue (S.alone system) → IfOk result
            (λ disk. past_read S.Folder.past disk.place ≡ S.found system) }
        ensures read { IsTrue S.Folder.tells → IfOk result
            (λ disk. IsReadFrom N.name (past_read S.Folder.past disk.place) (reading_in N.name S.Folder.past disk.place)) }
    {
        let mut system = system;
        match find(&mut system, alloc) {
            Ok(folder) => Ok(FolderReader {
                system,
                folder,
                faults: 0,
            }),
            Err(error) => Err(Unopened { system, error }),
        }
    }
}

/// How many files of a kind a folder has.
fn count<F: Folder, N: FileNames>(folder: &mut Option<Reading<F, N>>, kind: Kind) -> io::Result<u32>
    requires { IsTrue F.tells → IfSome folder.old (AreOpenToRead N.name F.name_of F.past) }
    ensures count { IfOk result (λ count. count ≡ file_count (reading_in N.name F.past (place_of folder.old)) kind) }
    ensures stays { StaysRead F.tells N.name F.past (place_of folder.old) (place_of folder.new) }
    ensures open { IsTrue F.tells → IfSome folder.new (AreOpenToRead N.name F.name_of F.past) }
{
    match folder {
        Some(folder) => folder.files(kind),
        None => Ok(0),
    }
}

/// The length of a file.
fn length<F: Folder, N: FileNames>(
    folder: &mut Option<Reading<F, N>>,
    kind: Kind,
    file: u32,
) -> io::Result<u64>
    requires open { IsTrue F.tells → IfSome folder.old (AreOpenToRead N.name F.name_of F.past) }
    requires there { IsTrue F.tells → file < file_count (reading_in N.name F.past (place_of folder.old)) kind }
    ensures length { IsTrue F.tells → IfOk result (λ len. len ≡ length (file_of (reading_in N.name F.past (place_of folder.old)) kind file)) }
    ensures stays { StaysRead F.tells N.name F.past (place_of folder.old) (place_of folder.new) }
    ensures open { IsTrue F.tells → IfSome folder.new (AreOpenToRead N.name F.name_of F.past) }
{
    match folder {
        Some(folder) => folder.len(kind, file),
        None => Err(unknown()),
    }
}

/// Fills `into` with the bytes of a file from a place on.
fn fill<F: Folder, N: FileNames>(
    folder: &mut Option<Reading<F, N>>,
    kind: Kind,
    file: u32,
    at: u64,
    into: &mut [u8],
) -> io::Result<()>
    requires open { IsTrue F.tells → IfSome folder.old (AreOpenToRead N.name F.name_of F.past) }
    requires there { IsTrue F.tells → file < file_count (reading_in N.name F.past (place_of folder.old)) kind }
    ensures bytes { IsTrue F.tells → OnOk result
        (into.new ≡ take (length into.old) (drop at (file_of (reading_in N.name F.past (place_of folder.old)) kind file))) }
    ensures stays { StaysRead F.tells N.name F.past (place_of folder.old) (place_of folder.new) }
    ensures open { IsTrue F.tells → IfSome folder.new (AreOpenToRead N.name F.name_of F.past) }
{
    match folder {
        Some(folder) => folder.read(kind, file, at, into),
        None => Err(unknown()),
    }
}

/// Fails where a file isn't there.
fn check<F: Folder, N: FileNames>(
    folder: &mut Option<Reading<F, N>>,
    kind: Kind,
    file: u32,
) -> io::Result<()>
    requires open { IsTrue F.tells → IfSome folder.old (AreOpenToRead N.name F.name_of F.past) }
    requires there { IsTrue F.tells → file < file_count (reading_in N.name F.past (place_of folder.old)) kind }
    ensures stays { StaysRead F.tells N.name F.past (place_of folder.old) (place_of folder.new) }
    ensures open { IsTrue F.tells → IfSome folder.new (AreOpenToRead N.name F.name_of F.past) }
{
    length(folder, kind, file)?;
    Ok(())
}

/// Finds the folder and holds it beside others that read, or finds none.
fn find<S, N>(system: &mut S, alloc: Global) -> io::Result<Option<Reading<S::Folder, N>>>
where
    S: Folders,
    S::Folder: Drop,
    N: FileNames,
    ensures found { IsTrue S.Folder.tells → IsTrue (S.alone system.old) → IfOk result
        (λ folder. past_read S.Folder.past (place_of folder) ≡ S.found system.old) }
    ensures read { IsTrue S.Folder.tells → IfOk result
        (λ folder. IsReadFrom N.name (past_read S.Folder.past (place_of folder)) (reading_in N.name S.Folder.past (place_of folder))) }
    ensures open { IfOk result (λ folder. IfSome folder (AreOpenToRead N.name S.Folder.name_of S.Folder.past)) }
{
    match system.hold(Lock::Shared) {
        Ok(folder) => Ok(Some(Reading::open(folder, alloc)?)),
        Err(error) => {
            check_missing(system, error)?;
            Ok(None)
        }
    }
}

/// Refuses a call that makes or changes a file. It is told, and counted.
fn refused<T, C: Causes, D: Display + Drop>(
    faults: &mut u64,
    causes: &mut C,
    what: D,
    call: &str,
) -> Result<T, Failed>
    ensures refused { IsErr result }
    ensures counts { CountsFaults faults.old faults.new result }
{
    told(faults, causes, what, call, Err(only_read()))
}

impl<S: Folders + Causes, N: FileNames> Disk for FolderReader<S, N> {
    ghost tells = { S.Folder.tells };

    ghost reading = { λ d. reading_in N.name S.Folder.past d.place };

    ghost images = { λ d. images_in S.Folder.tells N.name S.Folder.past d.place };

    ghost moment = { λ d. 0 };

    ghost images_since = { λ d t. images_in S.Folder.tells N.name S.Folder.past d.place };

    ghost faults = { λ d. d.faults };

    fn files(&mut self, kind: Kind) -> Result<u32, Failed> {
        let answer = count(&mut self.folder, kind);
        told(
            &mut self.faults,
            &mut self.system,
            FOLDER,
            "count files",
            answer,
        )
    }

    fn create(&mut self, _kind: Kind) -> Result<u32, Failed> {
        refused(&mut self.faults, &mut self.system, FOLDER, "make a file")
    }

    fn len(&mut self, kind: Kind, file: u32) -> Result<u64, Failed> {
        let answer = length(&mut self.folder, kind, file);
        told(
            &mut self.faults,
            &mut self.system,
            N::path_of(kind, file),
            "ask for its length",
            answer,
        )
    }

    fn read(&mut self, kind: Kind, file: u32, at: u64, into: &mut [u8]) -> Result<(), Failed> {
        let answer = fill(&mut self.folder, kind, file, at, into);
        told(
            &mut self.faults,
            &mut self.system,
            N::path_of(kind, file),
            "read",
            answer,
        )
    }

    fn write_at(&mut self, kind: Kind, file: u32, _at: u64, _bytes: &[u8]) -> Result<(), Failed> {
        refused(
            &mut self.faults,
            &mut self.system,
            N::path_of(kind, file),
            "write",
        )
    }

    fn cut(&mut self, kind: Kind, file: u32, _len: u64) -> Result<(), Failed> {
        refused(
            &mut self.faults,
            &mut self.system,
            N::path_of(kind, file),
            "cut",
        )
    }

    /// Nothing was written, so it waits for nothing.
    fn sync(&mut self, kind: Kind, file: u32) -> Result<(), Failed> {
        let answer = check(&mut self.folder, kind, file);
        told(
            &mut self.faults,
            &mut self.system,
            N::path_of(kind, file),
            "sync",
            answer,
        )
    }

    fn faults(&self) -> u64 {
        self.faults
    }

    ghost reading_is_image = { λ d told. reading_is_read S.Folder.tells N.name S.Folder.past d.place told };

    ghost no_more_files = { λ d image kind there. no_more_read S.Folder.tells N.name S.Folder.past d.place image kind there };

    ghost now_counts = { λ d t image le there. there };

    ghost now_only = { λ d image there. there };

    ghost earlier = { λ d t s image le there. there };
}
