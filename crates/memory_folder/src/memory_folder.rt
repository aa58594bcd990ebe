//! A folder in memory, which tells what was done in it, fails where it is told to, and can be stopped.
ghost use Rattle.std.specs.Prelude.{◌≡◌, ◌<◌, ◌≤◌, ◌⊎◌, Some, length, take, drop, IfOk};
ghost use Rattle.folder_model.specs.Calls.{MayMake, WritesInPart, CutsInPart};
ghost use Rattle.folder_model.specs.Found.{IsFoundAfterCrash};
ghost use Rattle.memory_folder.specs.Found.{past_found};
ghost use Rattle.memory_folder.specs.Past.{past_of, nothing_done};

use crate::plan::Plan;
use crate::store::Store;
use capture::Memory;
use folder_model::{Access, Folder, Names};
use std::alloc::Global;
use std::io;
use std::io::ErrorKind;
use std::marker::Model;

/// An open file of a folder in memory, which a contract sees as its name.
#[derive(Drop)]
pub struct MemoryFile {
    name: String,
}

impl Model for MemoryFile {
    ghost use Rattle.std.specs.Prelude.{List, ℕ, string_bytes};

    ghost Value = { List ℕ };

    ghost view = { λ f. string_bytes f.name };
}

impl MemoryFile {
    /// An open file of this name, in memory of its own.
    fn of(alloc: Global, name: &str) -> io::Result<MemoryFile>
        ensures { IfOk result (λ file. file ≡ name.now) }
    {
        let name = String::from_str(alloc, name)?;
        Ok(MemoryFile { name })
    }

    /// The name in place.
    fn name(&self) -> &str
        ensures { result.now ≡ self.now }
    {
        self.name.as_str()
    }
}

/// A folder in memory that is held. A call fails where the plan says so, where memory was refused, and where its file isn't there.
#[derive(Drop)]
pub struct MemoryFolder {
    /// What was done in it, which a contract sees as the folder's past.
    pub store: Store,
    /// Which of its calls fail.
    pub plan: Plan,
    /// The allocator.
    pub alloc: Global,
}

impl MemoryFolder {
    /// A folder without files, which is on the disk, or was just made and may be missing after a stop.
    pub fn empty(alloc: Global, there: bool) -> MemoryFolder
        ensures { result.store ≡ nothing_done there }
    {
        MemoryFolder {
            store: Store::empty(alloc, there),
            plan: Plan::none(alloc),
            alloc,
        }
    }

    /// Stops it, as a crash now may. What is left may be no folder, and else all that is left is on the disk. At choice 0 nothing is there
    /// that isn't sure to be on the disk, at choice 1 all that reads find, and at a choice c above 1 all names, and of each file's writes and
    /// cuts that aren't sure the first c - 2 bytes, in order, and one byte more that is `W`.
    pub fn stop(&self, choice: u32) -> Result<Option<MemoryFolder>, Memory>
        ensures { IfOk result (λ left. IsFoundAfterCrash (Some (past_of self.now.store)) (past_found left)) }
    {
        match self.store.stop(choice)? {
            Some(store) => Ok(Some(MemoryFolder {
                store,
                plan: Plan::none(self.alloc),
                alloc: self.alloc,
            })),
            None => Ok(None),
        }
    }

    /// Fails to make a file, or makes it all the same.
    fn fail_make(&mut self, name: &str)
        ensures { MayMake name.now (past_of self.old.store) (past_of self.new.store) }
    {
        if !self.plan.in_part || self.store.has(name) {
            return;
        }
        let _ = self.store.make(name);
    }

    /// Fails to write, where the first half may be written.
    fn fail_write(&mut self, name: &str, at: u64, piece: &[u8])
        ensures { WritesInPart name.now at piece.now (past_of self.old.store) (past_of self.new.store) }
    {
        let half = if self.plan.in_part {
            piece.len() / 2
        } else {
            0
        };
        let (front, back) = piece.split_at(half);
        if self
            .store
            .write(name, at, front, back.len() as u64)
            .is_err()
        {
            self.store.write_none(name, at, piece.len() as u64);
        }
    }

    /// Fails to cut, where all may be cut.
    fn fail_cut(&mut self, name: &str, len: u64)
        ensures { CutsInPart name.now len (past_of self.old.store) (past_of self.new.store) }
    {
        if !self.plan.in_part || self.store.cut(name, len).is_err() {
            self.store.cut_none(name, len);
        }
    }
}

/// What a call that is to fail answers.
fn planned() -> io::Error {
    io::Error::from(ErrorKind::Other)
}

/// What a call answers where memory was refused.
fn refused() -> io::Error {
    io::Error::from(ErrorKind::OutOfMemory)
}

impl Folder for MemoryFolder {
    ghost use Rattle.std.specs.Prelude.{true};
    ghost use Rattle.memory_folder.specs.Past.{past_of};

    type File = MemoryFile;

    ghost tells = { true };

    ghost past = { λ f. past_of f.store };

    ghost name_of = { λ f. f };

    fn list<N: Names>(&mut self, names: &mut N) -> io::Result<()> {
        if self.plan.begin() {
            return Err(planned());
        }
        match self.store.give_names(names) {
            Ok(()) => Ok(()),
            Err(Memory) => Err(refused()),
        }
    }

    fn open(&mut self, name: &str, access: Access) -> io::Result<MemoryFile> {
        let _ = access;
        if self.plan.begin() {
            return Err(planned());
        }
        if !self.store.has(name) {
            return Err(io::Error::from(ErrorKind::NotFound));
        }
        MemoryFile::of(self.alloc, name)
    }

    fn make(&mut self, name: &str) -> io::Result<MemoryFile> {
        if self.plan.begin() {
            self.fail_make(name);
            return Err(planned());
        }
        if self.store.has(name) {
            return Err(io::Error::from(ErrorKind::AlreadyExists));
        }
        let file = MemoryFile::of(self.alloc, name)?;
        match self.store.make(name) {
            Ok(()) => Ok(file),
            Err(Memory) => Err(refused()),
        }
    }

    fn len(&mut self, file: &MemoryFile) -> io::Result<u64> {
        if self.plan.begin() {
            return Err(planned());
        }
        match self.store.bytes(file.name()) {
            Ok(bytes) => Ok(bytes.len() as u64),
            Err(Memory) => Err(refused()),
        }
    }

    fn read_at(&mut self, file: &MemoryFile, into: &mut [u8], at: u64) -> io::Result<usize> {
        if self.plan.begin() {
            return Err(planned());
        }
        match self.store.bytes(file.name()) {
            Ok(bytes) => {
                let most = self.plan.most.max(1);
                Ok(read_from(bytes.as_slice(), at as usize, into, most))
            }
            Err(Memory) => Err(refused()),
        }
    }

    fn write_at(&mut self, file: &MemoryFile, piece: &[u8], at: u64) -> io::Result<usize> {
        if self.plan.begin() {
            self.fail_write(file.name(), at, piece);
            return Err(planned());
        }
        let most = piece.len().min(self.plan.most);
        let (front, _) = piece.split_at(most);
        match self.store.write(file.name(), at, front, 0) {
            Ok(()) => Ok(most),
            Err(Memory) => {
                self.store.write_none(file.name(), at, piece.len() as u64);
                Err(refused())
            }
        }
    }

    fn set_len(&mut self, file: &MemoryFile, len: u64) -> io::Result<()> {
        if self.plan.begin() {
            self.fail_cut(file.name(), len);
            return Err(planned());
        }
        match self.store.cut(file.name(), len) {
            Ok(()) => Ok(()),
            Err(Memory) => {
                self.store.cut_none(file.name(), len);
                Err(refused())
            }
        }
    }

    fn sync_file(&mut self, file: &MemoryFile) -> io::Result<()> {
        if self.plan.begin() {
            self.store.sync(file.name(), false);
            return Err(planned());
        }
        self.store.sync(file.name(), true);
        Ok(())
    }

    fn sync_folder(&mut self) -> io::Result<()> {
        if self.plan.begin() {
            self.store.sync_folder(false);
            return Err(planned());
        }
        self.store.sync_folder(true);
        Ok(())
    }

    fn sync_around(&mut self) -> io::Result<()> {
        if self.plan.begin() {
            self.store.sync_around(false);
            return Err(planned());
        }
        self.store.sync_around(true);
        Ok(())
    }

    fn is_in_place(&mut self) -> io::Result<bool> {
        if self.plan.begin() {
            return Err(planned());
        }
        Ok(true)
    }

    fn is_at_name(&mut self, file: &MemoryFile) -> io::Result<bool> {
        if self.plan.begin() {
            return Err(planned());
        }
        Ok(self.store.has(file.name()))
    }

    fn check_writable(&mut self, name: &str) -> io::Result<()> {
        let _ = name;
        if self.plan.begin() {
            return Err(planned());
        }
        Ok(())
    }
}

/// Reads at a place, so many bytes at most, and answers how many: 0 only at the end, or where none were asked for.
fn read_from(bytes: &[u8], at: usize, into: &mut [u8], most: usize) -> usize
    requires { 0 < most }
    ensures bound { result ≤ length into.new }
    ensures gives { take result into.new ≡ take result (drop at bytes.now) }
    ensures end { result ≡ 0 → (length into.new ≡ 0) ⊎ (length bytes.now ≤ at) }
{
    let from = at.min(bytes.len());
    let (_, rest) = bytes.split_at(from);
    let many = rest.len().min(into.len()).min(most);
    let (front, _) = rest.split_at(many);
    into[..many].copy_from_slice(front);
    many
}
