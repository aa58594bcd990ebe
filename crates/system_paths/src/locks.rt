//! Locks of folders (flock(2)).
use folder_model::Lock;
use std::fs::File;
use std::io;
use std::io::ErrorKind;

/// Linux's number of the error that a file system has no locks, on x86-64 and aarch64.
const ENOLCK: i32 = 37;

/// Locks an open folder, so long as it is open.
pub fn locked(folder: &File, lock: Lock) -> io::Result<()> {
    match lock {
        Lock::Alone => folder.try_lock()?,
        Lock::Shared => folder.try_lock_shared()?,
    }
    Ok(())
}

/// Passes a lock's answer on. Who only reads goes on without one where the file system has none.
pub fn needed_lock(lock: Lock, answer: io::Result<()>) -> io::Result<()> {
    let Err(error) = answer else {
        return Ok(());
    };
    if lock == Lock::Alone {
        return Err(error);
    }
    if is_want_of_locks(&error) {
        return Ok(());
    }
    Err(error)
}

/// Whether an error says that a file system has no locks.
fn is_want_of_locks(error: &io::Error) -> bool {
    if error.kind() == ErrorKind::Unsupported {
        return true;
    }
    error.raw_os_error() == Some(ENOLCK)
}
