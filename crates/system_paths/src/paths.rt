//! What stands at a path.
ghost use Rattle.std.specs.Prelude.{IfOk};
ghost use Rattle.libc.specs.Io.{Ended};

use libc::{PATH_MAX, W_OK};
use std::fs::{File, Metadata};
use std::io::ErrorKind;
use std::os::unix::fs::MetadataExt;
use std::{fs, io};

/// Whether a symbolic link is at a path. Where nothing is there, none is.
pub fn is_link_at(system: &HostRuntime, path: &str) -> io::Result<bool> {
    match fs::symlink_metadata(system, path) {
        Ok(metadata) => Ok(metadata.is_symlink()),
        Err(error) => nothing_there(error),
    }
}

/// That no link is at a path, where the error says that nothing is there.
fn nothing_there(error: io::Error) -> io::Result<bool> {
    if error.kind() == ErrorKind::NotFound {
        Ok(false)
    } else {
        Err(error)
    }
}

/// Fails where something else than a regular file is at a path, as a folder or a pipe. Who opens a pipe waits for its other end, so
/// it is asked before.
pub fn check_regular(system: &HostRuntime, path: &str) -> io::Result<()> {
    if fs::metadata(system, path)?.is_file() {
        Ok(())
    } else {
        Err(io::Error::other("it is no regular file"))
    }
}

/// Whether a path leads to an open file or folder: to the same number (the inode's) on the same device. No two that are there
/// at once have both, and one that is moved keeps them.
pub fn is_at(system: &HostRuntime, file: &File, path: &str) -> io::Result<bool> {
    let (open, found) = (file.metadata()?, fs::metadata(system, path)?);
    Ok(identity_of(&open) == identity_of(&found))
}

/// Which file or folder the system's answer is about: its device and its number there.
fn identity_of(metadata: &Metadata) -> (u64, u64) {
    (metadata.dev(), metadata.ino())
}

/// Fails where this process may not write a file, or may not make files in a folder.
pub fn may_write(path: &str) -> io::Result<()> {
    let path = c_path_of(path.as_bytes())?;
    let answer = unsafe { libc::access(&path, W_OK) };
    if answer == 0 {
        Ok(())
    } else {
        Err(io::Error::from_raw_os_error(os::errno()))
    }
}

/// A path as the C library takes it, with a zero behind it.
pub fn c_path_of(path: &[u8]) -> io::Result<[u8; PATH_MAX]>
    ensures { IfOk result Ended }
{
    if path.len() >= PATH_MAX {
        return Err(io::Error::from(ErrorKind::InvalidFilename));
    }
    let mut text = [0u8; PATH_MAX];
    text[..path.len()].copy_from_slice(path);
    text[PATH_MAX - 1] = 0;
    Ok(text)
}
