//! How a disk comes to hold its folder.
ghost use Rattle.std.specs.Prelude.{◌≡◌, IsTrue, IfOk, OnOk};
ghost use Rattle.std.specs.IoError.{error_kind};
ghost use Rattle.std.specs.declared.io.ErrorKind.TheVariants.{NotFound};
ghost use Rattle.disk_model.specs.Image.{no_files};
ghost use Rattle.folder_model.specs.Folder.{contents_of, IsUnfailed};
ghost use Rattle.folder_disk.specs.Begun.{IsBegunHeld, IsBegunIn, IsHeldSince};
ghost use Rattle.folder_disk.specs.Gaps.{IsSeenFilled};
ghost use Rattle.held_folder.specs.Held.{state_of, AreHeld};
ghost use Rattle.folder_disk.specs.Standing.{state_at, AreOpenAt};
ghost use Rattle.folder_disk.specs.Found.{IsAsFound};
ghost use Rattle.held_folder.specs.State.{IsKnown, reading};

use crate::gaps::count_to_write;
use crate::reasons::{leads_nowhere, of_lock};
use crate::standing::Standing;
use disk_model::Kind;
use folder_files::{FileNames, count, files_of_others};
use folder_model::{Folder, Folders, Lock};
use held_folder::{Held, Unheld};
use std::alloc::Global;
use std::io;
use std::io::ErrorKind;

/// What came of the making of a folder that wasn't there.
#[derive(Drop)]
pub(crate) enum Begun<F: Folder, N: FileNames> {
    /// It is held, and has no files.
    Held(Held<F, N>),
    /// It may be tried again.
    Later(io::Error),
    /// It has files of others, or a sync failed.
    Never(io::Error),
}

/// Why a folder wasn't begun.
#[derive(Drop)]
enum Unbegun<F> {
    /// It may be tried again.
    Later(Unheld<F>),
    /// It has files of others, or a sync failed.
    Never(Unheld<F>),
}

/// Finds the folder and holds it to write in it, or finds none, which may be made.
pub(crate) fn find<S, N>(system: &mut S, alloc: Global) -> io::Result<Standing<S, N>>
where
    S: Folders,
    S::Folder: Drop,
    N: FileNames,
    ensures known { IsTrue S.Folder.tells → IfOk result (λ standing. IsKnown N.name (state_at S.Folder.past standing)) }
    ensures open { IsTrue S.Folder.tells → IfOk result (AreOpenAt N.name S.Folder.name_of S.Folder.past) }
    ensures found { IsTrue S.Folder.tells → IsTrue (S.alone system.old) → IfOk result
        (λ standing. IsAsFound N.name (S.found system.old) (reading N.name (state_at S.Folder.past standing))) }
{
    match system.hold(Lock::Alone) {
        Ok(folder) => found(system, folder, alloc),
        Err(error) => absent(system, error),
    }
}

/// Finds no folder, which may be made, or fails with the cause that it wasn't held.
fn absent<S, N>(system: &mut S, error: io::Error) -> io::Result<Standing<S, N>>
where
    S: Folders,
    N: FileNames,
    ensures known { IfOk result (λ standing. IsKnown N.name (state_at S.Folder.past standing)) }
    ensures open { IfOk result (AreOpenAt N.name S.Folder.name_of S.Folder.past) }
    ensures none { IfOk result (λ standing. reading N.name (state_at S.Folder.past standing) ≡ no_files) }
    ensures missing { OnOk result (error_kind error ≡ NotFound) }
{
    check_absent(system, error)?;
    Ok(Standing::Absent)
}

/// Holds a folder that is there, or lets it go.
fn found<S, N>(system: &mut S, folder: S::Folder, alloc: Global) -> io::Result<Standing<S, N>>
where
    S: Folders,
    S::Folder: Drop,
    N: FileNames,
    requires { IsTrue S.Folder.tells → IsUnfailed (S.Folder.past folder) }
    ensures known { IsTrue S.Folder.tells → IfOk result (λ standing. IsKnown N.name (state_at S.Folder.past standing)) }
    ensures open { IsTrue S.Folder.tells → IfOk result (AreOpenAt N.name S.Folder.name_of S.Folder.past) }
    ensures seen { IsTrue S.Folder.tells → IfOk result
        (λ standing. IsSeenFilled N.name (contents_of (S.Folder.past folder)) (reading N.name (state_at S.Folder.past standing))) }
{
    if let Err(error) = system.check_writable() {
        system.let_go(folder);
        return Err(error);
    }
    match held_by_counts::<S::Folder, N>(folder, alloc) {
        Ok(held) => Ok(Standing::Held(held)),
        Err(unheld) => {
            let Unheld { folder, error } = unheld;
            system.let_go(folder);
            Err(error)
        }
    }
}

/// Makes the folder and holds it. It wasn't there when it was looked for, so it may have no files.
pub(crate) fn begin<S, N>(system: &mut S, alloc: Global) -> Begun<S::Folder, N>
where
    S: Folders,
    S::Folder: Drop,
    N: FileNames,
    ensures { IsBegunIn S.Folder.tells N.name S.Folder.name_of S.Folder.past result }
{
    match made(system) {
        Ok(folder) => match begin_in(folder, alloc) {
            Ok(held) => Begun::Held(held),
            Err(unbegun) => let_go(system, unbegun),
        },
        Err(error) => Begun::Later(error),
    }
}

/// Lets a folder go that wasn't begun.
fn let_go<S, N>(system: &mut S, unbegun: Unbegun<S::Folder>) -> Begun<S::Folder, N>
where
    S: Folders,
    S::Folder: Drop,
    N: FileNames,
    ensures { IsBegunIn S.Folder.tells N.name S.Folder.name_of S.Folder.past result }
{
    match unbegun {
        Unbegun::Later(Unheld { folder, error }) => {
            system.let_go(folder);
            Begun::Later(error)
        }
        Unbegun::Never(Unheld { folder, error }) => {
            system.let_go(folder);
            Begun::Never(error)
        }
    }
}

/// Holds a folder that may have no files, or gives it back.
fn begin_in<F, N>(folder: F, alloc: Global) -> Result<Held<F, N>, Unbegun<F>>
where
    F: Folder + Drop,
    N: FileNames,
    requires { IsTrue F.tells → IsUnfailed (F.past folder) }
    ensures { IfOk result (λ held. IsBegunHeld F.tells N.name F.name_of F.past held) }
{
    let mut folder = folder;
    let counts = match count::<F, N>(&mut folder, alloc) {
        Ok(counts) => counts,
        Err(error) => return Err(Unbegun::Later(Unheld { folder, error })),
    };
    if counts.warc != 0 {
        return Err(of_others(folder));
    }
    if counts.cdxj != 0 {
        return Err(of_others(folder));
    }
    match Held::open(folder, alloc, counts) {
        Ok(held) => Ok(held),
        Err(unheld) => Err(Unbegun::Never(unheld)),
    }
}

/// A folder that has files of others.
fn of_others<F>(folder: F) -> Unbegun<F> {
    Unbegun::Never(Unheld {
        folder,
        error: files_of_others(),
    })
}

/// Makes the folder where it isn't there, and holds it to write in it.
fn made<S>(system: &mut S) -> io::Result<S::Folder>
where
    S: Folders,
    S::Folder: Drop,
    ensures { IsTrue S.Folder.tells → IfOk result (λ folder. IsUnfailed (S.Folder.past folder)) }
{
    if let Err(error) = system.make_folder() {
        if error.kind() != ErrorKind::AlreadyExists {
            return Err(error);
        }
    }
    take(system)
}

/// Holds the folder to write in it.
fn take<S>(system: &mut S) -> io::Result<S::Folder>
where
    S: Folders,
    S::Folder: Drop,
    ensures { IsTrue S.Folder.tells → IfOk result (λ folder. IsUnfailed (S.Folder.past folder)) }
{
    match system.hold(Lock::Alone) {
        Ok(folder) => match system.check_writable() {
            Ok(()) => Ok(folder),
            Err(error) => {
                system.let_go(folder);
                Err(error)
            }
        },
        Err(error) => Err(of_lock(error)),
    }
}

/// Counts the files of a folder, makes checkpoints that are missing, and holds it. The last of each kind may be written, and is
/// synced. Where that fails the folder is given back.
fn held_by_counts<F, N>(folder: F, alloc: Global) -> Result<Held<F, N>, Unheld<F>>
where
    F: Folder + Drop,
    N: FileNames,
    requires { IsTrue F.tells → IsUnfailed (F.past folder) }
    ensures since { IsTrue F.tells → IfOk result (IsHeldSince N.name F.name_of F.past) }
    ensures seen { IsTrue F.tells → IfOk result
        (λ held. IsSeenFilled N.name (contents_of (F.past folder)) (reading N.name (state_of F.past held))) }
{
    let mut folder = folder;
    match count_to_write::<F, N>(&mut folder, alloc) {
        Ok(counts) => match Held::open(folder, alloc, counts) {
            Ok(held) => held_and_synced(held),
            Err(unheld) => Err(unheld),
        },
        Err(error) => Err(Unheld { folder, error }),
    }
}

/// Syncs the last file of each kind of a folder that is held. Where that fails the folder is given back.
fn held_and_synced<F, N>(held: Held<F, N>) -> Result<Held<F, N>, Unheld<F>>
where
    F: Folder + Drop,
    N: FileNames,
    requires known { IsTrue F.tells → IsKnown N.name (state_of F.past held) }
    requires open { IsTrue F.tells → AreHeld N.name F.name_of F.past held }
    ensures since { IsTrue F.tells → IfOk result (IsHeldSince N.name F.name_of F.past) }
    ensures same { IsTrue F.tells → IfOk result
        (λ synced. reading N.name (state_of F.past synced) ≡ reading N.name (state_of F.past held)) }
{
    let mut held = held;
    match sync_lasts(&mut held) {
        Ok(()) => Ok(held),
        Err(error) => Err(Unheld {
            folder: held.into_folder(),
            error,
        }),
    }
}

/// Syncs the last file of each kind.
fn sync_lasts<F, N>(held: &mut Held<F, N>) -> io::Result<()>
where
    F: Folder + Drop,
    N: FileNames,
    requires known { IsTrue F.tells → IsKnown N.name (state_of F.past held.old) }
    requires open { IsTrue F.tells → AreHeld N.name F.name_of F.past held.old }
    ensures known { IsTrue F.tells → IsKnown N.name (state_of F.past held.new) }
    ensures open { IsTrue F.tells → AreHeld N.name F.name_of F.past held.new }
    ensures same { IsTrue F.tells → reading N.name (state_of F.past held.new) ≡ reading N.name (state_of F.past held.old) }
{
    held.sync_last(Kind::Warc)?;
    held.sync_last(Kind::Cdxj)
}

/// Fails unless the folder wasn't held since it isn't there, and this process may make it.
fn check_absent<S: Folders>(system: &mut S, error: io::Error) -> io::Result<()>
    ensures { OnOk result (error_kind error ≡ NotFound) }
{
    check_missing(system, error)?;
    system.check_around()
}

/// Fails unless the folder wasn't held since it isn't there. A link that leads to none isn't one that isn't there.
pub(crate) fn check_missing<S: Folders>(system: &mut S, error: io::Error) -> io::Result<()>
    ensures { OnOk result (error_kind error ≡ NotFound) }
{
    if error.kind() != ErrorKind::NotFound {
        return Err(of_lock(error));
    }
    if system.is_link()? {
        return Err(leads_nowhere());
    }
    Ok(())
}
