//! Why a call of a folder is refused.
ghost use Rattle.std.specs.Prelude.{◌≡◌, ◌≤◌, ◌+◌, IsTrue, IfOk, OnOk, max};

use crate::counting::greater;
use folder_model::Folder;
use std::io;
use std::io::ErrorKind;

/// Where files are in a folder of which this process doesn't know.
pub fn files_of_others() -> io::Error {
    io::Error::other("files of another process are in it, of which this one doesn't know")
}

/// Where a path leads to another file or folder than the one that is open.
pub fn moved() -> io::Error {
    io::Error::other("it was moved or replaced while it was in use")
}

/// Where a place lies past a file's length.
fn past_the_end() -> io::Error {
    io::Error::new(ErrorKind::InvalidInput, "a place past the end of the file")
}

/// Fails where the folder isn't at its path any more.
pub fn check_in_place<F: Folder>(folder: &mut F) -> io::Result<()>
    ensures { IsTrue F.tells → F.past folder.new ≡ F.past folder.old }
{
    if folder.is_in_place()? {
        Ok(())
    } else {
        Err(moved())
    }
}

/// Fails where so many bytes from a place on aren't within a length.
pub fn inside(at: u64, many: usize, len: u64) -> io::Result<()>
    ensures { OnOk result (at + many ≤ len) }
{
    match at.checked_add(many as u64) {
        Some(end) => {
            if end <= len {
                Ok(())
            } else {
                Err(past_the_end())
            }
        }
        None => Err(past_the_end()),
    }
}

/// How long a file is once so many bytes were written at a place of it that isn't past its end.
pub fn end_of(at: u64, many: usize, len: u64) -> io::Result<u64>
    ensures inside { OnOk result (at ≤ len) }
    ensures end { IfOk result (λ end. end ≡ max len (at + many)) }
{
    inside(at, 0, len)?;
    match at.checked_add(many as u64) {
        Some(end) => Ok(greater(len, end)),
        None => Err(past_the_end()),
    }
}

/// Where a file below another one of its kind isn't there.
pub fn number_missing() -> io::Error {
    io::Error::new(
        ErrorKind::InvalidData,
        "a number among its files is missing",
    )
}

/// Where a file has the greatest number of all, or one that was to be made would have it.
pub fn no_further_number() -> io::Error {
    io::Error::new(
        ErrorKind::StorageFull,
        "no number is left behind the last of its files",
    )
}

/// Of a file that isn't there.
pub fn unknown() -> io::Error {
    io::Error::from(ErrorKind::NotFound)
}
