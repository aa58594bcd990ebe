//! The system's folders and files: each call is one of the system's.
ghost use Rattle.std.specs.Prelude.{true, false, [], None};
ghost use Rattle.std.proofs.Common.{refl};

use crate::file_system::{FileSystem, SilentFolders};
use folder_disk::{Causes, FOLDER};
use folder_model::{Access, Folder, Folders, Lock, Names};
use std::fmt::Display;
use std::fs::{File, OpenOptions};
use std::os::unix::fs::FileExt;
use std::{fs, io};
use system_paths::{
    check_regular, is_at, is_link_at, locked, may_write, needed_lock, pass_over_odd_name,
};

/// Where the system's folder `archive` is found, in the folder where the program runs.
#[derive(Clone, Copy)]
pub struct SystemFolders {
    system: HostRuntime,
}

/// A folder of the system's, which this process holds by a lock of the folder itself (flock(2)).
#[derive(Drop)]
pub struct SystemFolder {
    system: HostRuntime,
    /// The folder, open and locked.
    folder: File,
    path: String,
}

/// An open file of a folder, with its path.
#[derive(Drop)]
pub struct SystemFile {
    file: File,
    path: String,
}

impl FileSystem for HostRuntime {
    type Folders = SystemFolders;

    fn folders(&self) -> SystemFolders {
        SystemFolders { system: *self }
    }
}

impl Causes for SystemFolders {
    fn tell<D: Display + Drop>(&mut self, what: D, call: &str, error: &io::Error) {
        system_network::Causes::tell(&mut self.system, what, call, error);
    }
}

impl Folders for SystemFolders {
    type Folder = SystemFolder;

    ghost alone = { λ _. false };

    ghost found = { λ _. None };

    fn make_folder(&mut self) -> io::Result<()> {
        fs::create_dir(&self.system, FOLDER)
    }

    fn hold(&mut self, lock: Lock) -> io::Result<SystemFolder> {
        SystemFolder::held_at(self.system, FOLDER, lock)
    }

    fn let_go(&mut self, folder: SystemFolder) {
        drop(folder);
    }

    fn is_link(&mut self) -> io::Result<bool> {
        is_link_at(&self.system, FOLDER)
    }

    fn check_writable(&mut self) -> io::Result<()> {
        may_write(FOLDER)
    }

    fn check_around(&mut self) -> io::Result<()> {
        may_write(around(FOLDER))
    }
}

impl SilentFolders for SystemFolders {
    ghost silent = { refl };
}

impl SystemFolder {
    /// The folder at a path, held so. It is opened by its name within itself, which nothing but a folder has: the open of a
    /// named pipe would wait for whoever writes into it.
    pub fn held_at(system: HostRuntime, path: &str, lock: Lock) -> io::Result<SystemFolder> {
        let itself = format!(in system.alloc(); "{path}/.")?;
        let folder = File::open(&system, itself.as_str())?;
        needed_lock(lock, locked(&folder, lock))?;
        let path = String::from_str(system.alloc(), path)?;
        Ok(SystemFolder {
            system,
            folder,
            path,
        })
    }

    /// The path of a file in it.
    fn path_of(&self, name: &str) -> io::Result<String> {
        let folder = self.path.as_str();
        Ok(format!(in self.system.alloc(); "{folder}/{name}")?)
    }
}

impl Folder for SystemFolder {
    type File = SystemFile;

    ghost tells = { false };

    ghost past = { λ _. record { first = λ _. None; there = true; deeds = [] } };

    ghost name_of = { λ _. [] };

    fn list<N: Names>(&mut self, names: &mut N) -> io::Result<()> {
        for entry in fs::read_dir(&self.system, self.path.as_str())? {
            match entry {
                Ok(entry) => names.add(entry.file_name())?,
                Err(error) => pass_over_odd_name(error)?,
            }
        }
        Ok(())
    }

    fn open(&mut self, name: &str, access: Access) -> io::Result<SystemFile> {
        let path = self.path_of(name)?;
        let file = opened(&self.system, path.as_str(), access)?;
        Ok(SystemFile { file, path })
    }

    fn make(&mut self, name: &str) -> io::Result<SystemFile> {
        let path = self.path_of(name)?;
        let file = File::create_new(&self.system, path.as_str())?;
        Ok(SystemFile { file, path })
    }

    fn len(&mut self, file: &SystemFile) -> io::Result<u64> {
        Ok(file.file.metadata()?.len())
    }

    fn read_at(&mut self, file: &SystemFile, into: &mut [u8], at: u64) -> io::Result<usize> {
        file.file.read_at(into, at)
    }

    fn write_at(&mut self, file: &SystemFile, piece: &[u8], at: u64) -> io::Result<usize> {
        file.file.write_at(piece, at)
    }

    fn set_len(&mut self, file: &SystemFile, len: u64) -> io::Result<()> {
        file.file.set_len(len)
    }

    fn sync_file(&mut self, file: &SystemFile) -> io::Result<()> {
        file.file.sync_data()
    }

    fn sync_folder(&mut self) -> io::Result<()> {
        self.folder.sync_all()
    }

    fn sync_around(&mut self) -> io::Result<()> {
        File::open(&self.system, around(self.path.as_str()))?.sync_all()
    }

    fn is_in_place(&mut self) -> io::Result<bool> {
        is_at(&self.system, &self.folder, self.path.as_str())
    }

    fn is_at_name(&mut self, file: &SystemFile) -> io::Result<bool> {
        is_at(&self.system, &file.file, file.path.as_str())
    }

    fn check_writable(&mut self, name: &str) -> io::Result<()> {
        let path = self.path_of(name)?;
        may_write(path.as_str())
    }
}

/// Opens a regular file that is there.
fn opened(system: &HostRuntime, path: &str, access: Access) -> io::Result<File> {
    check_regular(system, path)?;
    match access {
        Access::Read => File::open(system, path),
        Access::Update => OpenOptions::new().read(true).write(true).open(system, path),
    }
}

/// The folder in which a path's last name stands.
fn around(path: &str) -> &str {
    match path.rsplit_once('/') {
        Some((around, _)) => around,
        None => ".",
    }
}
