//! A folder in memory that tells no causes.
use folder_disk::Causes;
use folder_model::{Folders, Lock};
use memory_folder::{MemoryFolder, MemoryFolders};
use std::fmt::Display;
use std::io;

/// Where a folder in memory is found. Causes of faults are told to nobody.
#[derive(Drop)]
pub struct Quiet {
    /// Where it is found.
    pub folders: MemoryFolders,
}

impl Causes for Quiet {
    fn tell<D: Display + Drop>(&mut self, what: D, call: &str, error: &io::Error) {
        let _ = call;
        let _ = error;
        drop(what);
    }
}

impl Folders for Quiet {
    ghost use Rattle.memory_folder.specs.Found.{found_in, is_alone};

    type Folder = MemoryFolder;

    ghost alone = { λ quiet. is_alone quiet.folders };

    ghost found = { λ quiet. found_in quiet.folders };

    fn make_folder(&mut self) -> io::Result<()> {
        self.folders.make_folder()
    }

    fn hold(&mut self, lock: Lock) -> io::Result<MemoryFolder> {
        self.folders.hold(lock)
    }

    fn let_go(&mut self, folder: MemoryFolder) {
        self.folders.let_go(folder);
    }

    fn is_link(&mut self) -> io::Result<bool> {
        self.folders.is_link()
    }

    fn check_writable(&mut self) -> io::Result<()> {
        self.folders.check_writable()
    }

    fn check_around(&mut self) -> io::Result<()> {
        self.folders.check_around()
    }
}
