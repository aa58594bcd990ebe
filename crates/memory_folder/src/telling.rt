//! The past of a folder in memory after a deed more.
ghost use Rattle.std.specs.Prelude.{◌≡◌, ◌+◌};
ghost use Rattle.folder_model.specs.File.{Made, Wrote, Shortened, Synced};
ghost use Rattle.folder_model.specs.Folder.{SyncedFolder, SyncedAround, did, did_to};
ghost use Rattle.memory_folder.specs.Entry.{found};
ghost use Rattle.memory_folder.specs.Past.{past_of, nothing_done, all_settled, entry_bound};

use crate::entry::MemoryEntry;
use crate::told::Told;
use shown::Shown;

/// The past of a folder without files, which is on the disk or just made.
pub fn new_folder(there: bool) -> Shown<Told>
    ensures { result.value ≡ nothing_done there }
{
    Shown::told_by(&there)
}

/// The past of a folder that has these files on the disk.
pub fn settled(entries: &Vec<MemoryEntry>) -> Shown<Told>
    ensures { result.value ≡ all_settled entries.now.items }
{
    Shown::told_by(entries)
}

/// A folder's past, and what is done to a file of it. It takes no memory.
#[derive(Drop)]
pub struct Telling<'a> {
    pub past: &'a Shown<Told>,
    pub name: &'a str,
    pub at: u64,
    pub bytes: &'a [u8],
    pub rest: u64,
    pub done: bool,
}

/// The file was made.
pub fn made(telling: &Telling) -> Shown<Told>
    ensures { past_of result.value ≡ did_to (past_of telling.now.past.now.value) telling.now.name.now Made }
{
    Shown::told_by(telling)
}

/// Bytes were written at a place, and so many more were to be.
pub fn wrote(telling: &Telling) -> Shown<Told>
    ensures { past_of result.value ≡ did_to (past_of telling.now.past.now.value) telling.now.name.now
        (Wrote telling.now.at telling.now.bytes.now telling.now.rest) }
{
    Shown::told_by(telling)
}

/// The file was cut to a length.
pub fn cut(telling: &Telling) -> Shown<Told>
    ensures { past_of result.value ≡ did_to (past_of telling.now.past.now.value) telling.now.name.now
        (Shortened telling.now.at telling.now.rest) }
{
    Shown::told_by(telling)
}

/// A sync of the file was done, or failed.
pub fn synced(telling: &Telling) -> Shown<Told>
    ensures { past_of result.value ≡ did_to (past_of telling.now.past.now.value) telling.now.name.now (Synced telling.now.done) }
{
    Shown::told_by(telling)
}

/// A sync of the folder was done, or failed.
pub fn listed(telling: &Telling) -> Shown<Told>
    ensures { past_of result.value ≡ did (past_of telling.now.past.now.value) (SyncedFolder telling.now.done) }
{
    Shown::told_by(telling)
}

/// A sync of the folder around it was done, or failed.
pub fn placed(telling: &Telling) -> Shown<Told>
    ensures { past_of result.value ≡ did (past_of telling.now.past.now.value) (SyncedAround telling.now.done) }
{
    Shown::told_by(telling)
}

/// A file, of which nothing is cut though it was to be.
#[derive(Drop)]
pub struct Sparing<'a> {
    pub past: &'a Shown<Told>,
    pub name: &'a str,
    pub len: u64,
    pub entries: &'a [MemoryEntry],
}

/// It was cut to more bytes than it can have.
pub fn uncut(telling: &Sparing) -> Shown<Told>
    ensures { past_of result.value ≡ did_to (past_of telling.now.past.now.value) telling.now.name.now
        (Shortened (telling.now.len + entry_bound (found telling.now.entries.now telling.now.name.now))
        (entry_bound (found telling.now.entries.now telling.now.name.now))) }
{
    Shown::told_by(telling)
}
