//! Where the folder is, between two steps.
use crate::quiet::Quiet;
use capture::Memory;
use case_stores::Held;
use folder_disk::{ArchiveNames, FolderDisk};

/// The disk in the folder.
pub type Disk = FolderDisk<Quiet, ArchiveNames>;

/// The folder, which nobody holds, or a disk over it, or the archive.
#[derive(Drop)]
pub enum Found {
    /// Nobody holds it.
    Free(Quiet),
    /// A disk does.
    Held(Held<Disk>),
}

impl Found {
    /// The folder, which nobody holds then: what was open is closed.
    pub fn freed(self) -> Quiet {
        match self {
            Found::Free(quiet) => quiet,
            Found::Held(held) => held.closed().close(),
        }
    }
}

/// What a stop leaves of it by this choice. `None` where memory was refused.
pub fn stopped(quiet: Quiet, choice: u32) -> Option<Quiet> {
    let Quiet { folders } = quiet;
    match folders.stop(choice) {
        Ok(left) => Some(Quiet { folders: left }),
        Err(Memory) => None,
    }
}
