//! Files that outlast a crash.
ghost use Rattle.std.specs.Prelude.{◌≡◌, ℕ, true, IsTrue, List, IfOk, OnOk};
ghost use Rattle.folder_model.specs.File.{Made, Synced};
ghost use Rattle.folder_model.specs.Folder.{FolderPast, SyncedFolder, SyncedAround, did, did_to, IsNameSureAt};
ghost use Rattle.folder_model.specs.Whole.{made_durably, settled_durably, OnlySyncs, MakesInPart, OnListed};

use crate::folder::Folder;
use std::io;

/// Why a file wasn't made so that it outlasts a crash.
#[derive(Drop)]
pub enum MakeFault {
    /// The folder's sync failed. A later one doesn't answer for the names that this one was to write.
    Unlisted(io::Error),
    /// Another call failed. Where the file was made its name is on the disk once the folder is synced.
    Unsettled(io::Error),
}

/// Makes an empty file so that it outlasts a crash: the file is synced, then the folder, then the folder around it. A call
/// that fails may have made it.
pub fn make_durably<F: Folder>(folder: &mut F, name: &str) -> Result<F::File, MakeFault>
    ensures named { IsTrue F.tells → IfOk result (λ file. F.name_of file ≡ name.now) }
    ensures made { IsTrue F.tells → OnOk result (F.past folder.new ≡ made_durably name.now (F.past folder.old)) }
    ensures partial { IsTrue F.tells → MakesInPart name.now (F.past folder.old) (F.past folder.new) }
    ensures listed { IsTrue F.tells → (m : List ℕ) → IsNameSureAt (F.past folder.old) m → OnListed result (IsNameSureAt (F.past folder.new) m) }
{
    let file = match folder.make(name) {
        Ok(file) => file,
        Err(error) => return Err(MakeFault::Unsettled(error)),
    };
    match settle_durably(folder, &file) {
        Ok(()) => Ok(file),
        Err(fault) => Err(fault),
    }
}

/// Syncs a file, then the folder, then the folder around it.
pub fn settle_durably<F: Folder>(folder: &mut F, file: &F::File) -> Result<(), MakeFault>
    ensures settled { IsTrue F.tells → OnOk result (F.past folder.new ≡ settled_durably (F.name_of file.now) (F.past folder.old)) }
    ensures only { IsTrue F.tells → (start : FolderPast) → OnlySyncs (F.name_of file.now) start (F.past folder.old)
        → OnlySyncs (F.name_of file.now) start (F.past folder.new) }
    ensures listed { IsTrue F.tells → (m : List ℕ) → IsNameSureAt (F.past folder.old) m → OnListed result (IsNameSureAt (F.past folder.new) m) }
{
    match synced_file(folder, file) {
        Ok(()) => {}
        Err(error) => return Err(MakeFault::Unsettled(error)),
    }
    match synced_folder(folder) {
        Ok(()) => {}
        Err(error) => return Err(MakeFault::Unlisted(error)),
    }
    match synced_around(folder) {
        Ok(()) => Ok(()),
        Err(error) => Err(MakeFault::Unsettled(error)),
    }
}

/// Syncs a file.
fn synced_file<F: Folder>(folder: &mut F, file: &F::File) -> io::Result<()>
    ensures synced { IsTrue F.tells → OnOk result (F.past folder.new ≡ did_to (F.past folder.old) (F.name_of file.now) (Synced true)) }
    ensures only { IsTrue F.tells → (start : FolderPast) → OnlySyncs (F.name_of file.now) start (F.past folder.old)
        → OnlySyncs (F.name_of file.now) start (F.past folder.new) }
    ensures listed { IsTrue F.tells → (m : List ℕ) → IsNameSureAt (F.past folder.old) m → IsNameSureAt (F.past folder.new) m }
{
    folder.sync_file(file)
}

/// Syncs the folder.
fn synced_folder<F: Folder>(folder: &mut F) -> io::Result<()>
    ensures synced { IsTrue F.tells → OnOk result (F.past folder.new ≡ did (F.past folder.old) (SyncedFolder true)) }
    ensures only { IsTrue F.tells → (name : List ℕ) (start : FolderPast) → OnlySyncs name start (F.past folder.old)
        → OnlySyncs name start (F.past folder.new) }
    ensures listed { IsTrue F.tells → (m : List ℕ) → IsNameSureAt (F.past folder.old) m → OnOk result (IsNameSureAt (F.past folder.new) m) }
{
    match folder.sync_folder() {
        Ok(()) => Ok(()),
        Err(error) => Err(error),
    }
}

/// Syncs the folder around it.
fn synced_around<F: Folder>(folder: &mut F) -> io::Result<()>
    ensures synced { IsTrue F.tells → OnOk result (F.past folder.new ≡ did (F.past folder.old) (SyncedAround true)) }
    ensures only { IsTrue F.tells → (name : List ℕ) (start : FolderPast) → OnlySyncs name start (F.past folder.old)
        → OnlySyncs name start (F.past folder.new) }
    ensures listed { IsTrue F.tells → (m : List ℕ) → IsNameSureAt (F.past folder.old) m → IsNameSureAt (F.past folder.new) m }
{
    folder.sync_around()
}
