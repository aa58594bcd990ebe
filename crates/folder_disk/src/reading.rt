//! A folder that is held beside others that read.
ghost use Rattle.std.specs.Prelude.{◌≡◌, ◌<◌, Some, IsTrue, IfOk, OnOk, length, take, drop};
ghost use Rattle.disk_model.specs.Image.{file_count, file_of};
ghost use Rattle.folder_model.specs.Folder.{contents_of};
ghost use Rattle.folder_files.specs.OpenFiles.{IsOpen};
ghost use Rattle.folder_disk.specs.Reader.{read_folder, read_image, AreOpenToRead, IsReadIn, StaysRead};

use crate::gaps::count_to_read;
use disk_model::Kind;
use folder_files::{
    Counts, FileNames, OpenFiles, OpenOne, check_in_place, open_one, read_open, unknown,
};
use folder_model::{Access, Folder};
use std::alloc::Global;
use std::io;
use std::marker::PhantomData;

/// A folder in which nobody writes, as a disk that is read, with how many files of each kind it has.
#[derive(Drop)]
pub(crate) struct Reading<F: Folder, N: FileNames> {
    folder: F,
    alloc: Global,
    counts: Counts,
    files: OpenFiles<F::File>,
    names: PhantomData<N>,
}

impl<F: Folder + Drop, N: FileNames> Reading<F, N> {
    /// A folder, whose files are counted.
    pub(crate) fn open(folder: F, alloc: Global) -> io::Result<Reading<F, N>>
        ensures past { IsTrue F.tells → IfOk result (λ reading. F.past reading.folder ≡ F.past folder) }
        ensures front { IsTrue F.tells → IfOk result
            (λ reading. IsReadIn N.name (contents_of (F.past reading.folder)) (read_image N.name F.past (read_folder reading))) }
        ensures open { IfOk result (AreOpenToRead N.name F.name_of F.past) }
    {
        let mut folder = folder;
        let counts = count_to_read::<F, N>(&mut folder, alloc)?;
        Ok(Reading {
            folder,
            alloc,
            counts,
            files: OpenFiles::new(),
            names: PhantomData,
        })
    }
}

impl<F: Folder, N: FileNames> Reading<F, N> {
    /// How many files of a kind there are.
    pub(crate) fn files(&mut self, kind: Kind) -> io::Result<u32>
        requires { IsTrue F.tells → AreOpenToRead N.name F.name_of F.past self.old }
        ensures count { IfOk result (λ count. count ≡ file_count (read_image N.name F.past (read_folder self.old)) kind) }
        ensures stays { StaysRead F.tells N.name F.past (Some (read_folder self.old)) (Some (read_folder self.new)) }
        ensures open { IsTrue F.tells → AreOpenToRead N.name F.name_of F.past self.new }
    {
        check_in_place(&mut self.folder)?;
        Ok(self.counts.of(kind))
    }

    /// The length of a file in bytes.
    pub(crate) fn len(&mut self, kind: Kind, file: u32) -> io::Result<u64>
        requires open { IsTrue F.tells → AreOpenToRead N.name F.name_of F.past self.old }
        requires there { IsTrue F.tells → file < file_count (read_image N.name F.past (read_folder self.old)) kind }
        ensures length { IsTrue F.tells → IfOk result
            (λ len. len ≡ length (file_of (read_image N.name F.past (read_folder self.old)) kind file)) }
        ensures stays { StaysRead F.tells N.name F.past (Some (read_folder self.old)) (Some (read_folder self.new)) }
        ensures open { IsTrue F.tells → AreOpenToRead N.name F.name_of F.past self.new }
    {
        let one = self.taken(kind, file)?;
        let len = one.len;
        self.files.keep(one);
        Ok(len)
    }

    /// Fills `into` with the bytes of a file from a place on.
    pub(crate) fn read(&mut self, kind: Kind, file: u32, at: u64, into: &mut [u8]) -> io::Result<()>
        requires open { IsTrue F.tells → AreOpenToRead N.name F.name_of F.past self.old }
        requires there { IsTrue F.tells → file < file_count (read_image N.name F.past (read_folder self.old)) kind }
        ensures bytes { IsTrue F.tells → OnOk result
            (into.new ≡ take (length into.old) (drop at (file_of (read_image N.name F.past (read_folder self.old)) kind file))) }
        ensures stays { StaysRead F.tells N.name F.past (Some (read_folder self.old)) (Some (read_folder self.new)) }
        ensures open { IsTrue F.tells → AreOpenToRead N.name F.name_of F.past self.new }
    {
        let one = self.taken(kind, file)?;
        let done = read_open(&mut self.folder, &one, at, into);
        self.files.keep_after(done, one)
    }

    /// Takes a file, one that is open or else opened now.
    fn taken(&mut self, kind: Kind, number: u32) -> io::Result<OpenOne<F::File>>
        requires { IsTrue F.tells → AreOpenToRead N.name F.name_of F.past self.old }
        ensures this { IfOk result (λ one. (one.kind ≡ kind) × (one.number ≡ number)) }
        ensures open { IsTrue F.tells → IfOk result (IsOpen N.name F.name_of (F.past self.new.folder)) }
        ensures others { IsTrue F.tells → AreOpenToRead N.name F.name_of F.past self.new }
        ensures same { IsTrue F.tells → F.past self.new.folder ≡ F.past self.old.folder }
        ensures rest { self.new ≡ record self.old { folder = self.new.folder; files = self.new.files } }
    {
        match self.files.take_for_reading(kind, number) {
            Some(one) => Ok(one),
            None => self.opened(kind, number),
        }
    }

    /// Opens a file, and asks for its length.
    fn opened(&mut self, kind: Kind, number: u32) -> io::Result<OpenOne<F::File>>
        ensures this { IfOk result (λ one. (one.kind ≡ kind) × (one.number ≡ number)) }
        ensures open { IsTrue F.tells → IfOk result (IsOpen N.name F.name_of (F.past self.new.folder)) }
        ensures same { IsTrue F.tells → F.past self.new.folder ≡ F.past self.old.folder }
        ensures rest { self.new ≡ record self.old { folder = self.new.folder } }
    {
        if self.counts.of(kind) <= number {
            return Err(unknown());
        }
        open_one::<F, N>(&mut self.folder, self.alloc, kind, number, Access::Read)
    }
}
