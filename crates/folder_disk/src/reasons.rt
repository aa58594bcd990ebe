//! Why the folder of a disk isn't taken, and what isn't done in one that is only read.
use std::io;
use std::io::ErrorKind;

/// Where a path is a link that leads to none, as one does whose disk isn't mounted.
pub(crate) fn leads_nowhere() -> io::Error {
    io::Error::new(ErrorKind::NotFound, "the link leads nowhere")
}

/// Why a file that isn't there couldn't be made: where something has its name that is a link which leads to none.
pub(crate) fn of_dangling_link(error: io::Error) -> io::Error {
    if error.kind() == ErrorKind::AlreadyExists {
        leads_nowhere()
    } else {
        error
    }
}

/// Why a folder couldn't be held.
pub(crate) fn of_lock(error: io::Error) -> io::Error {
    if error.kind() == ErrorKind::WouldBlock {
        io::Error::new(ErrorKind::WouldBlock, "another process has the archive")
    } else {
        error
    }
}

/// Of what a disk was asked that is only read.
pub(crate) fn only_read() -> io::Error {
    io::Error::new(ErrorKind::PermissionDenied, "it was opened to be read")
}
