//! Reads and writes of whole ranges of a file, however short the calls are.
ghost use Rattle.std.specs.Prelude.{◌≡◌, ◌+◌, ◌<◌, ◌≤◌, IsTrue, List, ℕ, Some, length, take, drop, IfOk, OnOk, OnErr};
ghost use Rattle.disk_model.specs.Image.{written};
ghost use Rattle.folder_model.specs.File.{Wrote};
ghost use Rattle.folder_model.specs.Folder.{FolderPast, did_to, contents_of, bytes_of};
ghost use Rattle.folder_model.specs.Whole.{Covers, IsInFile, IsWriting, OnTorn, WritesWithin};

use crate::folder::Folder;
use std::io;
use std::io::ErrorKind;

/// How often one call may be interrupted by signals before it gives up.
const MOST_TRIES: u32 = 1_000;

/// Why a write failed.
#[derive(Drop)]
pub enum WriteFault {
    /// The system failed. All of the bytes that were to be written may be torn.
    Torn(io::Error),
    /// The system took no byte, or was interrupted too often. The bytes behind those that were written may stand as they were.
    Stuck(io::Error),
}

/// Fills `into` with the bytes of a file from a place on. Where the file ends before, that is a failure.
pub fn read_whole<F: Folder>(
    folder: &mut F,
    file: &F::File,
    at: u64,
    into: &mut [u8],
) -> io::Result<()>
    ensures bytes { IsTrue F.tells → OnOk result
        (into.new ≡ take (length into.old) (drop at (bytes_of (F.past folder.old) (F.name_of file.now)))) }
    ensures past { IsTrue F.tells → F.past folder.new ≡ F.past folder.old }
{
    let mut done = 0;
    while done < into.len() {
        let place = place_behind(at, done)?;
        done += read_some(folder, file, place, &mut into[done..])?;
    }
    Ok(())
}

/// Writes all bytes at a place of a file that isn't past its end, over what is there and behind it. A call that fails may
/// have written some of them.
pub fn write_whole<F: Folder>(
    folder: &mut F,
    file: &F::File,
    at: u64,
    bytes: &[u8],
) -> Result<(), WriteFault>
    requires { IsTrue F.tells → IsInFile (F.past folder.old) (F.name_of file.now) at }
    ensures written { IsTrue F.tells → OnOk result
        (IsWriting (F.name_of file.now) at bytes.now (length bytes.now) (F.past folder.old) (F.past folder.new)) }
    ensures partial { IsTrue F.tells → WritesWithin (F.name_of file.now) at (length bytes.now) (F.past folder.old) (F.past folder.new) }
    ensures torn { IsTrue F.tells → OnTorn result (Covers (F.name_of file.now) at (length bytes.now) (F.past folder.old) (F.past folder.new)) }
{
    let mut done = 0;
    while done < bytes.len() {
        let place = match place_behind(at, done) {
            Ok(place) => place,
            Err(error) => return Err(WriteFault::Stuck(error)),
        };
        match write_some(folder, file, place, bytes, done) {
            Ok(n) => done += n,
            Err(fault) => return Err(fault),
        }
    }
    Ok(())
}

/// The place so many bytes behind another, where there is one.
fn place_behind(at: u64, done: usize) -> io::Result<u64>
    ensures { IfOk result (λ place. place ≡ at + done) }
{
    match at.checked_add(done as u64) {
        Some(place) => Ok(place),
        None => Err(io::Error::from(ErrorKind::InvalidInput)),
    }
}

/// Reads once, one byte or more, and again where a signal interrupted it.
fn read_some<F: Folder>(
    folder: &mut F,
    file: &F::File,
    at: u64,
    into: &mut [u8],
) -> io::Result<usize>
    ensures some { IfOk result (λ n. 0 < n) }
    ensures fits { IfOk result (λ n. n ≤ length into.new) }
    ensures gives { IsTrue F.tells → IfOk result
        (λ n. take n into.new ≡ take n (drop at (bytes_of (F.past folder.old) (F.name_of file.now)))) }
    ensures past { IsTrue F.tells → F.past folder.new ≡ F.past folder.old }
{
    for _ in 0..MOST_TRIES {
        match folder.read_at(file, into, at) {
            Ok(0) => return Err(io::Error::from(ErrorKind::UnexpectedEof)),
            Ok(n) => return Ok(n),
            Err(error) => {
                if error.kind() != ErrorKind::Interrupted {
                    return Err(error);
                }
            }
        }
    }
    Err(io::Error::from(ErrorKind::Interrupted))
}

/// Writes the bytes behind the first `done` ones once, one byte or more, and again where a signal interrupted it.
fn write_some<F: Folder>(
    folder: &mut F,
    file: &F::File,
    place: u64,
    bytes: &[u8],
    done: usize,
) -> Result<usize, WriteFault>
    requires inside { done < length bytes.now }
    requires so_far { IsTrue F.tells → (old : FolderPast) × (at : ℕ) × (place ≡ at + done)
        × IsWriting (F.name_of file.now) at bytes.now done old (F.past folder.old) }
    ensures some { IfOk result (λ n. 0 < n) }
    ensures fits { IfOk result (λ n. done + n ≤ length bytes.now) }
    ensures takes { IsTrue F.tells → (old : FolderPast) (at : ℕ) → place ≡ at + done
        → IsWriting (F.name_of file.now) at bytes.now done old (F.past folder.old)
        → IfOk result (λ n. IsWriting (F.name_of file.now) at bytes.now (done + n) old (F.past folder.new)) }
    ensures fails { IsTrue F.tells → (old : FolderPast) (at : ℕ) → place ≡ at + done
        → IsWriting (F.name_of file.now) at bytes.now done old (F.past folder.old)
        → OnErr result (IsWriting (F.name_of file.now) at bytes.now done old (F.past folder.new)) }
    ensures torn { IsTrue F.tells → (old : FolderPast) (at : ℕ) → place ≡ at + done
        → IsWriting (F.name_of file.now) at bytes.now done old (F.past folder.old)
        → OnTorn result (Covers (F.name_of file.now) at (length bytes.now) old (F.past folder.new)) }
{
    let (_, rest) = bytes.split_at(done);
    for _ in 0..MOST_TRIES {
        match folder.write_at(file, rest, place) {
            Ok(0) => return Err(WriteFault::Stuck(io::Error::from(ErrorKind::WriteZero))),
            Ok(n) => return Ok(n),
            Err(error) => {
                if error.kind() != ErrorKind::Interrupted {
                    return Err(WriteFault::Torn(error));
                }
            }
        }
    }
    Err(WriteFault::Stuck(io::Error::from(ErrorKind::Interrupted)))
}
