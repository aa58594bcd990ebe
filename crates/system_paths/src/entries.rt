//! Names in a folder.
use std::io;
use std::io::ErrorKind;

/// Passes over the error of an entry whose name isn't UTF-8, which no file of the archive has. All others mean that the
/// list may lack names.
pub fn pass_over_odd_name(error: io::Error) -> io::Result<()> {
    if error.raw_os_error().is_none() && error.kind() == ErrorKind::InvalidFilename {
        Ok(())
    } else {
        Err(error)
    }
}
