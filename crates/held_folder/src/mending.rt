//! How a file is mended of which a sync failed: its range is written anew as it is read.
ghost use Rattle.std.specs.Prelude.{◌≡◌, ◌≤◌, true, IsTrue, IfOk, OnOk, OnErr, length, min};
ghost use Rattle.folder_model.specs.File.{Wrote, Synced};
ghost use Rattle.folder_model.specs.Folder.{did_to, bytes_of};
ghost use Rattle.folder_model.specs.Ranges.{MendsIn};
ghost use Rattle.held_folder.specs.Mending.{range_in, written_anew};

use crate::reasons::short;
use folder_files::OpenOne;
use folder_model::{Folder, read_whole};
use std::alloc::Global;
use std::io;

/// Writes a range of a file anew, cuts the file where it ends, as a write that failed may have left more on the disk, and
/// syncs it. What a crash may leave of it stays what it was.
pub(crate) fn sync_anew<F: Folder>(
    folder: &mut F,
    alloc: Global,
    one: &OpenOne<F::File>,
    at: u64,
    len: u64,
) -> io::Result<()>
    requires inside { IsTrue F.tells → at ≤ length (bytes_of (F.past folder.old) (F.name_of one.now.file)) }
    requires end { IsTrue F.tells → one.now.len ≡ length (bytes_of (F.past folder.old) (F.name_of one.now.file)) }
    ensures done { IsTrue F.tells → OnOk result (F.past folder.new
        ≡ did_to (written_anew (F.past folder.old) (F.name_of one.now.file) at len) (F.name_of one.now.file) (Synced true)) }
    ensures partial { IsTrue F.tells → OnErr result
        (MendsIn (F.name_of one.now.file) at len (bytes_of (F.past folder.old) (F.name_of one.now.file)) (F.past folder.old) (F.past folder.new)) }
{
    write_anew(folder, alloc, one, at, len)?;
    match folder.set_len(&one.file, one.len) {
        Ok(()) => {}
        Err(error) => return Err(error),
    }
    match folder.sync_file(&one.file) {
        Ok(()) => Ok(()),
        Err(error) => Err(error),
    }
}

/// Writes a range of a file anew, by one call.
fn write_anew<F: Folder>(
    folder: &mut F,
    alloc: Global,
    one: &OpenOne<F::File>,
    at: u64,
    len: u64,
) -> io::Result<()>
    requires inside { IsTrue F.tells → at ≤ length (bytes_of (F.past folder.old) (F.name_of one.now.file)) }
    requires end { IsTrue F.tells → one.now.len ≡ length (bytes_of (F.past folder.old) (F.name_of one.now.file)) }
    ensures done { IsTrue F.tells → OnOk result (F.past folder.new
        ≡ did_to (F.past folder.old) (F.name_of one.now.file) (Wrote at (range_in (F.past folder.old) (F.name_of one.now.file) at len) 0)) }
    ensures partial { IsTrue F.tells → OnErr result
        (MendsIn (F.name_of one.now.file) at len (bytes_of (F.past folder.old) (F.name_of one.now.file)) (F.past folder.old) (F.past folder.new)) }
{
    let bytes = match read_range(folder, alloc, one, at, len) {
        Ok(bytes) => bytes,
        Err(error) => return Err(error),
    };
    match folder.write_at(&one.file, bytes.as_slice(), at) {
        Ok(n) => {
            if n == bytes.len() {
                return Ok(());
            }
            Err(short())
        }
        Err(error) => Err(error),
    }
}

/// Reads a range of a file, as far as the file goes.
fn read_range<F: Folder>(
    folder: &mut F,
    alloc: Global,
    one: &OpenOne<F::File>,
    at: u64,
    len: u64,
) -> io::Result<Vec<u8>>
    requires { IsTrue F.tells → one.now.len ≡ length (bytes_of (F.past folder.old) (F.name_of one.now.file)) }
    ensures bytes { IsTrue F.tells → IfOk result (λ bytes. bytes.items ≡ range_in (F.past folder.old) (F.name_of one.now.file) at len) }
    ensures past { IsTrue F.tells → F.past folder.new ≡ F.past folder.old }
{
    let many = least(len, one.len.saturating_sub(at));
    read_bytes(folder, alloc, &one.file, at, many)
}

/// Reads so many bytes of a file.
fn read_bytes<F: Folder>(
    folder: &mut F,
    alloc: Global,
    file: &F::File,
    at: u64,
    many: u64,
) -> io::Result<Vec<u8>>
    ensures bytes { IsTrue F.tells → IfOk result (λ bytes. bytes.items ≡ range_in (F.past folder.old) (F.name_of file.now) at many) }
    ensures past { IsTrue F.tells → F.past folder.new ≡ F.past folder.old }
{
    let mut bytes = zeros(alloc, many)?;
    read_whole(folder, file, at, bytes.as_mut_slice())?;
    Ok(bytes)
}

/// The lesser of two numbers.
fn least(a: u64, b: u64) -> u64
    ensures { result ≡ min a b }
{
    if a < b {
        return a;
    }
    b
}

/// So many zeros.
fn zeros(alloc: Global, len: u64) -> io::Result<Vec<u8>>
    ensures { IfOk result (λ bytes. length bytes.items ≡ len) }
{
    let mut bytes = Vec::new(alloc);
    bytes.resize(len as usize, 0u8)?;
    Ok(bytes)
}
