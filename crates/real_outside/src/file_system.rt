//! The file system as the archive's disk uses it, so that a test can stand in for it.
ghost use Rattle.std.specs.Prelude.{◌≡◌, false};

use folder_disk::Causes;
use folder_model::Folders;

/// Where folders are found that don't tell what was done in them, and what takes the causes of faults.
pub trait SilentFolders: Folders + Causes {
    /// They don't tell it.
    ghost silent: { Self.Folder.tells ≡ false };
}

/// Has folders.
pub trait FileSystem {
    /// Where they are found.
    type Folders: SilentFolders + Drop;

    /// Its folders.
    fn folders(&self) -> Self::Folders;
}
