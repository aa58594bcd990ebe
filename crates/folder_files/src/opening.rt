//! How a file of a folder is opened by its kind and number, and read.
ghost use Rattle.std.specs.Prelude.{◌≡◌, ◌≢◌, IsTrue, None, IfOk, OnOk, length, take, drop};
ghost use Rattle.folder_model.specs.Folder.{contents_of, bytes_of};
ghost use Rattle.folder_files.specs.OpenFiles.{IsOpen};

use crate::names::FileNames;
use crate::open_files::OpenOne;
use crate::reasons::{check_in_place, files_of_others, inside};
use disk_model::Kind;
use folder_model::{Access, Folder, read_whole};
use std::alloc::Global;
use std::io;

/// Opens a file, and asks for its length.
pub fn open_one<F: Folder, N: FileNames>(
    folder: &mut F,
    alloc: Global,
    kind: Kind,
    number: u32,
    access: Access,
) -> io::Result<OpenOne<F::File>>
    ensures this { IfOk result (λ one. (one.kind ≡ kind) × (one.number ≡ number)) }
    ensures open { IsTrue F.tells → IfOk result (IsOpen N.name F.name_of (F.past folder.new)) }
    ensures same { IsTrue F.tells → F.past folder.new ≡ F.past folder.old }
{
    let file = open_file::<F, N>(folder, alloc, kind, number, access)?;
    let len = folder.len(&file)?;
    Ok(OpenOne {
        kind,
        number,
        file,
        len,
        for_writing: access == Access::Update,
    })
}

/// Opens a file of a folder that is still at its path.
fn open_file<F: Folder, N: FileNames>(
    folder: &mut F,
    alloc: Global,
    kind: Kind,
    number: u32,
    access: Access,
) -> io::Result<F::File>
    ensures named { IsTrue F.tells → IfOk result (λ file. F.name_of file ≡ N.name kind number) }
    ensures there { IsTrue F.tells → OnOk result (contents_of (F.past folder.new) (N.name kind number) ≢ None) }
    ensures same { IsTrue F.tells → F.past folder.new ≡ F.past folder.old }
{
    check_in_place(folder)?;
    let name = N::name_of(alloc, kind, number)?;
    folder.open(name.as_str(), access)
}

/// Opens a file that was made empty and to which nothing was written: one that has bytes is another process's.
pub fn open_empty<F: Folder, N: FileNames>(
    folder: &mut F,
    alloc: Global,
    kind: Kind,
    number: u32,
) -> io::Result<F::File>
    ensures named { IsTrue F.tells → IfOk result (λ file. F.name_of file ≡ N.name kind number) }
    ensures there { IsTrue F.tells → OnOk result (contents_of (F.past folder.new) (N.name kind number) ≢ None) }
    ensures same { IsTrue F.tells → F.past folder.new ≡ F.past folder.old }
{
    let file = open_file::<F, N>(folder, alloc, kind, number, Access::Update)?;
    match check_empty(folder, &file) {
        Ok(()) => Ok(file),
        Err(error) => Err(error),
    }
}

/// Fails where a file has bytes.
fn check_empty<F: Folder>(folder: &mut F, file: &F::File) -> io::Result<()>
    ensures { IsTrue F.tells → F.past folder.new ≡ F.past folder.old }
{
    if folder.len(file)? == 0 {
        return Ok(());
    }
    Err(files_of_others())
}

/// Fills `into` with the bytes of an open file from a place on.
pub fn read_open<F: Folder>(
    folder: &mut F,
    one: &OpenOne<F::File>,
    at: u64,
    into: &mut [u8],
) -> io::Result<()>
    ensures bytes { IsTrue F.tells → OnOk result
        (into.new ≡ take (length into.old) (drop at (bytes_of (F.past folder.old) (F.name_of one.now.file)))) }
    ensures past { IsTrue F.tells → F.past folder.new ≡ F.past folder.old }
{
    inside(at, into.len(), one.len)?;
    read_whole(folder, &one.file, at, into)
}
