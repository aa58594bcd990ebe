//! The files of a folder in memory with what was done there.
ghost use Rattle.std.specs.Prelude.{◌≡◌, ◌∷◌, ◌++◌, ◌||◌, [], Some, None, true, false, not, is_some, length, IfOk, IfSome, OnOk, OnErr};
ghost use Rattle.folder_model.specs.Calls.{Lists, CutsInPart};
ghost use Rattle.folder_model.specs.File.{Made, Wrote, Shortened, Synced};
ghost use Rattle.folder_model.specs.Folder.{SyncedFolder, SyncedAround, did, did_to, contents_of, MayLeave, IsUnfailed};
ghost use Rattle.memory_folder.specs.Entry.{names_of};
ghost use Rattle.memory_folder.specs.Standing.{is_sure};
ghost use Rattle.memory_folder.specs.Past.{past_of, nothing_done, left_past, IsSettled};

use crate::budget::Budget;
use crate::entries::{bytes_at, keep_step, left_of, list_all, place_of, sync_one};
use crate::entry::MemoryEntry;
use crate::standing::Standing;
use crate::step::Step;
use crate::telling::{
    Sparing, Telling, cut, listed, made, new_folder, placed, settled, synced, uncut, wrote,
};
use crate::told::Told;
use capture::{Bytes, Memory};
use folder_model::Names;
use shown::Shown;
use std::alloc::Global;
use std::marker::Model;

/// The files of a folder in memory, which a contract sees as what was done there.
#[derive(Drop)]
pub struct Store {
    alloc: Global,
    entries: Vec<MemoryEntry>,
    placed: Standing,
    failed: bool,
    past: Shown<Told>,
}

impl Model for Store {
    ghost use Rattle.memory_folder.specs.Past.{Recorded, past_of};
    ghost use Rattle.memory_folder.specs.Past.{IsOf};

    ghost Value = { Recorded };

    ghost view = { λ s. s.past.value };

    ghost invariant = { λ s. IsOf s.entries.items s.placed s.failed (past_of s.past.value) };
}

impl Store {
    /// A folder without files, which is on the disk or just made.
    pub fn empty(alloc: Global, there: bool) -> Store
        ensures { result ≡ nothing_done there }
    {
        Store {
            alloc,
            entries: Vec::new(alloc),
            placed: if there {
                Standing::Sure
            } else {
                Standing::Fresh
            },
            failed: false,
            past: new_folder(there),
        }
    }

    /// Whether no sync has failed.
    pub fn is_unfailed(&self) -> bool
        ensures { result ≡ true → IsUnfailed (past_of self.now) }
    {
        !self.failed
    }

    /// Whether a file of this name is there.
    pub fn has(&self, name: &str) -> bool
        ensures { result ≡ is_some (contents_of (past_of self.now) name.now) }
    {
        match place_of(self.entries.as_slice(), name) {
            Some(_) => true,
            None => false,
        }
    }

    /// The bytes of a file that is there.
    pub fn bytes(&self, name: &str) -> Result<Vec<u8>, Memory>
        ensures { IfOk result (λ bytes. contents_of (past_of self.now) name.now ≡ Some bytes.items) }
    {
        let entries = self.entries.as_slice();
        match place_of(entries, name) {
            Some(i) => bytes_at(self.alloc, entries, i),
            None => Err(Memory),
        }
    }

    /// Gives all names.
    pub fn give_names<N: Names>(&self, names: &mut N) -> Result<(), Memory>
        ensures { OnOk result (Lists (contents_of (past_of self.now)) (N.given names.old) (N.given names.new)) }
    {
        give_names(self.entries.as_slice(), names)
    }

    /// Makes a file that isn't there, or does nothing where memory was refused.
    pub fn make(&mut self, name: &str) -> Result<(), Memory>
        requires { contents_of (past_of self.old) name.now ≡ None }
        ensures ok { OnOk result (past_of self.new ≡ did_to (past_of self.old) name.now Made) }
        ensures err { OnErr result (self.new ≡ self.old) }
    {
        let entry = MemoryEntry::made(self.alloc, name)?;
        self.entries.push(entry)?;
        self.past = made(&Telling {
            past: &self.past,
            name,
            at: 0,
            bytes: &[],
            rest: 0,
            done: true,
        });
        Ok(())
    }

    /// Writes bytes at a place of a file, where so many more were to be written. Where memory was refused nothing is done.
    pub fn write(&mut self, name: &str, at: u64, bytes: &[u8], rest: u64) -> Result<(), Memory>
        ensures ok { OnOk result (past_of self.new ≡ did_to (past_of self.old) name.now (Wrote at bytes.now rest)) }
        ensures err { OnErr result (self.new ≡ self.old) }
    {
        let copy = Bytes::of(Vec::from_slice(self.alloc, bytes)?);
        let step = Step::Write {
            at,
            bytes: copy,
            standing: Standing::Fresh,
        };
        keep_step(&mut self.entries, name, step)?;
        self.past = wrote(&Telling {
            past: &self.past,
            name,
            at,
            bytes,
            rest,
            done: true,
        });
        Ok(())
    }

    /// Writes nothing, where so many bytes were to be written.
    pub fn write_none(&mut self, name: &str, at: u64, many: u64)
        ensures { past_of self.new ≡ did_to (past_of self.old) name.now (Wrote at [] many) }
    {
        self.past = wrote(&Telling {
            past: &self.past,
            name,
            at,
            bytes: &[],
            rest: many,
            done: true,
        });
    }

    /// Cuts a file to a length. Where memory was refused nothing is done.
    pub fn cut(&mut self, name: &str, len: u64) -> Result<(), Memory>
        ensures ok { OnOk result (past_of self.new ≡ did_to (past_of self.old) name.now (Shortened len 0)) }
        ensures err { OnErr result (self.new ≡ self.old) }
    {
        let step = Step::Truncate {
            len,
            standing: Standing::Fresh,
        };
        keep_step(&mut self.entries, name, step)?;
        self.past = cut(&Telling {
            past: &self.past,
            name,
            at: len,
            bytes: &[],
            rest: 0,
            done: true,
        });
        Ok(())
    }

    /// Cuts nothing of a file, where it was to be cut to a length.
    pub fn cut_none(&mut self, name: &str, len: u64)
        ensures { CutsInPart name.now len (past_of self.old) (past_of self.new) }
    {
        self.past = uncut(&Sparing {
            past: &self.past,
            name,
            len,
            entries: self.entries.as_slice(),
        });
    }

    /// Syncs a file, or fails to.
    pub fn sync(&mut self, name: &str, done: bool)
        ensures { past_of self.new ≡ did_to (past_of self.old) name.now (Synced done) }
    {
        sync_one(&mut self.entries, name, done);
        self.failed = failed_since(self.failed, done);
        self.past = synced(&Telling {
            past: &self.past,
            name,
            at: 0,
            bytes: &[],
            rest: 0,
            done,
        });
    }

    /// Syncs the folder's names, or fails to.
    pub fn sync_folder(&mut self, done: bool)
        ensures { past_of self.new ≡ did (past_of self.old) (SyncedFolder done) }
    {
        list_all(self.entries.as_mut_slice(), done);
        self.failed = failed_since(self.failed, done);
        self.past = listed(&Telling {
            past: &self.past,
            name: "",
            at: 0,
            bytes: &[],
            rest: 0,
            done,
        });
    }

    /// Syncs the names of the folder around it, or fails to.
    pub fn sync_around(&mut self, done: bool)
        ensures { past_of self.new ≡ did (past_of self.old) (SyncedAround done) }
    {
        self.placed = self.placed.after_sync(done);
        self.failed = failed_since(self.failed, done);
        self.past = placed(&Telling {
            past: &self.past,
            name: "",
            at: 0,
            bytes: &[],
            rest: 0,
            done,
        });
    }

    /// What a stop leaves by this choice: no folder, or one whose files are all on the disk.
    pub fn stop(&self, choice: u32) -> Result<Option<Store>, Memory>
        ensures left { IfOk result (λ left. MayLeave (past_of self.now) (left_past left)) }
        ensures settled { IfOk result (λ left. IfSome left IsSettled) }
    {
        let budget = Budget::of(choice);
        if is_gone(budget, self.placed) {
            return Ok(None);
        }
        let entries = left_of(self.alloc, self.entries.as_slice(), budget)?;
        Ok(Some(Store {
            alloc: self.alloc,
            past: settled(&entries),
            entries,
            placed: Standing::Sure,
            failed: false,
        }))
    }
}

/// Whether a sync has failed, once one more was done or failed.
fn failed_since(failed: bool, done: bool) -> bool
    ensures { result ≡ (failed || not done) }
{
    failed || !done
}

/// Whether a stop leaves no folder, of which it is so sure that it is on the disk.
fn is_gone(budget: Budget, placed: Standing) -> bool
    ensures { result ≡ true → is_sure placed ≡ false }
{
    !budget.leaves_names() && !placed.is_sure()
}

/// Gives the name of each file.
fn give_names<N: Names>(entries: &[MemoryEntry], names: &mut N) -> Result<(), Memory>
    ensures { OnOk result (N.given names.new ≡ N.given names.old ++ names_of entries.now) }
{
    for entry in entries {
        names.add(entry.name())?;
    }
    Ok(())
}
