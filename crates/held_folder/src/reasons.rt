//! Why a call of a folder that is held is refused.
use folder_files::files_of_others;
use std::io;
use std::io::ErrorKind;

/// After files of others were found, a file was changed by others, a file that was to be made may be there or not, or a sync failed.
pub fn stopped() -> io::Error {
    io::Error::other("an earlier call failed, and what it left on the disk isn't known")
}

/// Where a file that is open isn't as long as this process left it.
pub(crate) fn changed() -> io::Error {
    io::Error::other("another process changed it while it was in use")
}

/// Where a call took some of the bytes that it was to take whole.
pub(crate) fn short() -> io::Error {
    io::Error::from(ErrorKind::WriteZero)
}

/// Why a file that is there wasn't made: one that was there before isn't this process's.
pub(crate) fn is_there_already(error: io::Error) -> io::Error {
    if error.kind() == ErrorKind::AlreadyExists {
        files_of_others()
    } else {
        error
    }
}
