//! How a disk stands to its folder.
ghost use Rattle.std.specs.Prelude.{◌≡◌, ◌<◌, ◌≤◌, IsTrue, IfOk, OnOk, length, take, drop};
ghost use Rattle.disk_model.specs.Image.{file_count, file_of};
ghost use Rattle.held_folder.specs.Calls.{Creates, WritesAt, Cuts, Syncs, Looks};
ghost use Rattle.folder_disk.specs.Kept.{folder_in};
ghost use Rattle.folder_disk.specs.Standing.{held_at, state_at, AreOpenAt};
ghost use Rattle.held_folder.specs.State.{IsKnown, no_folder, reading};

use crate::beginning::{Begun, begin};
use disk_model::Kind;
use folder_files::{FileNames, unknown};
use folder_model::Folders;
use held_folder::{Held, stopped};
use std::alloc::Global;
use std::io;

/// What a disk has of its folder.
#[derive(Drop)]
pub(crate) enum Standing<S: Folders, N: FileNames> {
    /// The folder.
    Held(Held<S::Folder, N>),
    /// Nothing, since it wasn't there. So it has no files.
    Absent,
    /// Nothing, for good: when it was made it had files of others, or a sync in it failed.
    Refused,
}

impl<S: Folders, N: FileNames> Standing<S, N> {
    /// How many files of a kind there are.
    pub(crate) fn files(&mut self, kind: Kind) -> io::Result<u32>
        requires known { IsTrue S.Folder.tells → IsKnown N.name (state_at S.Folder.past self.old) }
        requires open { IsTrue S.Folder.tells → AreOpenAt N.name S.Folder.name_of S.Folder.past self.old }
        ensures count { IsTrue S.Folder.tells → IfOk result (λ count. count ≡ file_count (reading N.name (state_at S.Folder.past self.old)) kind) }
        ensures looks { Looks S.Folder.tells N.name (state_at S.Folder.past self.old) (state_at S.Folder.past self.new) }
        ensures open { IsTrue S.Folder.tells → AreOpenAt N.name S.Folder.name_of S.Folder.past self.new }
    {
        match self {
            Standing::Held(held) => held.files(kind),
            Standing::Absent => Ok(0),
            Standing::Refused => Err(stopped()),
        }
    }

    /// The length of a file in bytes.
    pub(crate) fn len(&mut self, kind: Kind, file: u32) -> io::Result<u64>
        requires known { IsTrue S.Folder.tells → IsKnown N.name (state_at S.Folder.past self.old) }
        requires open { IsTrue S.Folder.tells → AreOpenAt N.name S.Folder.name_of S.Folder.past self.old }
        requires there { IsTrue S.Folder.tells → file < file_count (reading N.name (state_at S.Folder.past self.old)) kind }
        ensures length { IsTrue S.Folder.tells → IfOk result (λ len. len ≡ length (file_of (reading N.name (state_at S.Folder.past self.old)) kind file)) }
        ensures looks { Looks S.Folder.tells N.name (state_at S.Folder.past self.old) (state_at S.Folder.past self.new) }
        ensures open { IsTrue S.Folder.tells → AreOpenAt N.name S.Folder.name_of S.Folder.past self.new }
    {
        match self {
            Standing::Held(held) => held.len(kind, file),
            Standing::Absent => Err(unknown()),
            Standing::Refused => Err(stopped()),
        }
    }

    /// Fills `into` with the bytes of a file from a place on.
    pub(crate) fn read(&mut self, kind: Kind, file: u32, at: u64, into: &mut [u8]) -> io::Result<()>
        requires known { IsTrue S.Folder.tells → IsKnown N.name (state_at S.Folder.past self.old) }
        requires open { IsTrue S.Folder.tells → AreOpenAt N.name S.Folder.name_of S.Folder.past self.old }
        requires there { IsTrue S.Folder.tells → file < file_count (reading N.name (state_at S.Folder.past self.old)) kind }
        ensures bytes { IsTrue S.Folder.tells → OnOk result
            (into.new ≡ take (length into.old) (drop at (file_of (reading N.name (state_at S.Folder.past self.old)) kind file))) }
        ensures looks { Looks S.Folder.tells N.name (state_at S.Folder.past self.old) (state_at S.Folder.past self.new) }
        ensures open { IsTrue S.Folder.tells → AreOpenAt N.name S.Folder.name_of S.Folder.past self.new }
    {
        match self {
            Standing::Held(held) => held.read(kind, file, at, into),
            Standing::Absent => Err(unknown()),
            Standing::Refused => Err(stopped()),
        }
    }

    /// Writes at a place of a file.
    pub(crate) fn write_at(
        &mut self,
        kind: Kind,
        file: u32,
        at: u64,
        bytes: &[u8],
    ) -> io::Result<()>
        requires known { IsTrue S.Folder.tells → IsKnown N.name (state_at S.Folder.past self.old) }
        requires open { IsTrue S.Folder.tells → AreOpenAt N.name S.Folder.name_of S.Folder.past self.old }
        requires there { IsTrue S.Folder.tells → file < file_count (reading N.name (state_at S.Folder.past self.old)) kind }
        requires in_range { IsTrue S.Folder.tells → at ≤ length (file_of (reading N.name (state_at S.Folder.past self.old)) kind file) }
        ensures writes { WritesAt S.Folder.tells N.name kind file at bytes.now (state_at S.Folder.past self.old) (state_at S.Folder.past self.new) result }
        ensures open { IsTrue S.Folder.tells → AreOpenAt N.name S.Folder.name_of S.Folder.past self.new }
    {
        match self {
            Standing::Held(held) => held.write_at(kind, file, at, bytes),
            Standing::Absent => Err(unknown()),
            Standing::Refused => Err(stopped()),
        }
    }

    /// Cuts a file to a length.
    pub(crate) fn cut(&mut self, kind: Kind, file: u32, len: u64) -> io::Result<()>
        requires known { IsTrue S.Folder.tells → IsKnown N.name (state_at S.Folder.past self.old) }
        requires open { IsTrue S.Folder.tells → AreOpenAt N.name S.Folder.name_of S.Folder.past self.old }
        requires there { IsTrue S.Folder.tells → file < file_count (reading N.name (state_at S.Folder.past self.old)) kind }
        requires in_range { IsTrue S.Folder.tells → len ≤ length (file_of (reading N.name (state_at S.Folder.past self.old)) kind file) }
        ensures cuts { Cuts S.Folder.tells N.name kind file len (state_at S.Folder.past self.old) (state_at S.Folder.past self.new) result }
        ensures open { IsTrue S.Folder.tells → AreOpenAt N.name S.Folder.name_of S.Folder.past self.new }
    {
        match self {
            Standing::Held(held) => held.cut(kind, file, len),
            Standing::Absent => Err(unknown()),
            Standing::Refused => Err(stopped()),
        }
    }

    /// Waits until a file's bytes are on the disk.
    pub(crate) fn sync(&mut self, kind: Kind, file: u32) -> io::Result<()>
        requires known { IsTrue S.Folder.tells → IsKnown N.name (state_at S.Folder.past self.old) }
        requires open { IsTrue S.Folder.tells → AreOpenAt N.name S.Folder.name_of S.Folder.past self.old }
        requires there { IsTrue S.Folder.tells → file < file_count (reading N.name (state_at S.Folder.past self.old)) kind }
        ensures syncs { Syncs S.Folder.tells N.name kind file (state_at S.Folder.past self.old) (state_at S.Folder.past self.new) result }
        ensures open { IsTrue S.Folder.tells → AreOpenAt N.name S.Folder.name_of S.Folder.past self.new }
    {
        match self {
            Standing::Held(held) => held.sync(kind, file),
            Standing::Absent => Err(unknown()),
            Standing::Refused => Err(stopped()),
        }
    }

    /// Makes the next file of a kind so that it outlasts a crash, and the folder where it isn't there.
    pub(crate) fn create(&mut self, system: &mut S, alloc: Global, kind: Kind) -> io::Result<u32>
    where
        S::Folder: Drop,
        requires known { IsTrue S.Folder.tells → IsKnown N.name (state_at S.Folder.past self.old) }
        requires open { IsTrue S.Folder.tells → AreOpenAt N.name S.Folder.name_of S.Folder.past self.old }
        ensures creates { Creates S.Folder.tells N.name kind (state_at S.Folder.past self.old) (state_at S.Folder.past self.new) result }
        ensures open { IsTrue S.Folder.tells → AreOpenAt N.name S.Folder.name_of S.Folder.past self.new }
    {
        match self {
            Standing::Held(held) => held.create(kind),
            Standing::Absent => self.begin(system, alloc, kind),
            Standing::Refused => Err(stopped()),
        }
    }

    /// Makes the folder, and in it the first file of a kind.
    fn begin(&mut self, system: &mut S, alloc: Global, kind: Kind) -> io::Result<u32>
    where
        S::Folder: Drop,
        requires { state_at S.Folder.past self.old ≡ no_folder }
        ensures creates { Creates S.Folder.tells N.name kind no_folder (state_at S.Folder.past self.new) result }
        ensures open { IsTrue S.Folder.tells → AreOpenAt N.name S.Folder.name_of S.Folder.past self.old → AreOpenAt N.name S.Folder.name_of S.Folder.past self.new }
    {
        match begin::<S, N>(system, alloc) {
            Begun::Held(held) => {
                let mut held = held;
                let answer = held.create(kind);
                *self = Standing::Held(held);
                answer
            }
            Begun::Later(error) => Err(error),
            Begun::Never(error) => {
                *self = Standing::Refused;
                Err(error)
            }
        }
    }

    /// The folder, where it is held.
    pub(crate) fn into_folder(self) -> Option<S::Folder>
    where
        S::Folder: Drop,
        ensures { result ≡ folder_in (held_at self) }
    {
        match self {
            Standing::Held(held) => Some(held.into_folder()),
            Standing::Absent => None,
            Standing::Refused => None,
        }
    }
}
