//! The disk of the program: the folder `archive`.
ghost use Rattle.std.specs.Prelude.{◌≡◌, false};
ghost use Rattle.disk_model.specs.Image.{no_files};
ghost use Rattle.real_outside.specs.Disks.{lock_of};

use crate::file_system::SilentFolders;
use disk_model::{Disk, Kind};
use folder_disk::{ArchiveNames, FOLDER, FolderDisk, FolderReader, Unopened, counted};
use folder_model::Lock;
use outside::Failed;
use std::alloc::Global;

/// A disk in the folder `archive`, with its count of faults. It is opened by its first call, so that a program which stores and
/// reads nothing neither holds the folder nor says why it can't. Where that fails each call does, and the cause is told once. It
/// doesn't tell what its files hold.
#[derive(Drop)]
pub struct RealDisk<R: SilentFolders> {
    alloc: Global,
    lock: Lock,
    standing: Standing<R>,
    faults: u64,
}

/// How the folder is open.
#[derive(Drop)]
enum Standing<R: SilentFolders> {
    /// It isn't yet. This is where it is found.
    Closed(Option<R>),
    /// To be written.
    Writes(FolderDisk<R, ArchiveNames>),
    /// To be read alone.
    Reads(FolderReader<R, ArchiveNames>),
}

impl<R: SilentFolders> RealDisk<R> {
    /// The disk in that folder of the folder where the program runs. Who is to write has it alone.
    pub fn new(system: R, alloc: Global, lock: Lock) -> RealDisk<R>
        ensures no_fault { result.faults ≡ 0 }
        ensures lock { lock_of result ≡ lock }
    {
        RealDisk {
            alloc,
            lock,
            standing: Standing::Closed(Some(system)),
            faults: 0,
        }
    }
}

impl<R: SilentFolders + Drop> RealDisk<R>
where
    R::Folder: Drop,
{
    /// Opens the folder, where that wasn't done.
    fn open(&mut self)
        ensures { self.new.faults ≡ self.old.faults }
    {
        let Standing::Closed(system) = &mut self.standing else {
            return;
        };
        if let Some(system) = system.take() {
            self.standing = opened(system, self.alloc, self.lock);
        }
    }
}

/// Opens the folder. Where that fails the cause is told.
fn opened<R: SilentFolders + Drop>(system: R, alloc: Global, lock: Lock) -> Standing<R>
where
    R::Folder: Drop,
{
    match lock {
        Lock::Alone => match FolderDisk::open(system, alloc) {
            Ok(disk) => Standing::Writes(disk),
            Err(unopened) => told(unopened),
        },
        Lock::Shared => match FolderReader::open(system, alloc) {
            Ok(disk) => Standing::Reads(disk),
            Err(unopened) => told(unopened),
        },
    }
}

/// Tells why the folder wasn't opened. It isn't tried again: a sync that failed may have left there what a later one doesn't mend.
fn told<R: SilentFolders + Drop>(unopened: Unopened<R>) -> Standing<R> {
    let Unopened { system, error } = unopened;
    let mut system = system;
    system.tell(FOLDER, "count files", &error);
    Standing::Closed(None)
}

impl<R: SilentFolders + Drop> Standing<R>
where
    R::Folder: Drop,
{
    /// How many files of a kind there are.
    fn files(&mut self, kind: Kind) -> Result<u32, Failed> {
        match self {
            Standing::Closed(_) => Err(Failed),
            Standing::Writes(disk) => disk.files(kind),
            Standing::Reads(disk) => disk.files(kind),
        }
    }

    /// Makes the next file of a kind.
    fn create(&mut self, kind: Kind) -> Result<u32, Failed> {
        match self {
            Standing::Closed(_) => Err(Failed),
            Standing::Writes(disk) => disk.create(kind),
            Standing::Reads(disk) => disk.create(kind),
        }
    }

    /// The length of a file in bytes.
    fn len(&mut self, kind: Kind, file: u32) -> Result<u64, Failed> {
        match self {
            Standing::Closed(_) => Err(Failed),
            Standing::Writes(disk) => disk.len(kind, file),
            Standing::Reads(disk) => disk.len(kind, file),
        }
    }

    /// Fills `into` with the bytes of a file from a place on.
    fn read(&mut self, kind: Kind, file: u32, at: u64, into: &mut [u8]) -> Result<(), Failed> {
        match self {
            Standing::Closed(_) => Err(Failed),
            Standing::Writes(disk) => disk.read(kind, file, at, into),
            Standing::Reads(disk) => disk.read(kind, file, at, into),
        }
    }

    /// Writes at a place of a file.
    fn write_at(&mut self, kind: Kind, file: u32, at: u64, bytes: &[u8]) -> Result<(), Failed> {
        match self {
            Standing::Closed(_) => Err(Failed),
            Standing::Writes(disk) => disk.write_at(kind, file, at, bytes),
            Standing::Reads(disk) => disk.write_at(kind, file, at, bytes),
        }
    }

    /// Cuts a file to a length.
    fn cut(&mut self, kind: Kind, file: u32, len: u64) -> Result<(), Failed> {
        match self {
            Standing::Closed(_) => Err(Failed),
            Standing::Writes(disk) => disk.cut(kind, file, len),
            Standing::Reads(disk) => disk.cut(kind, file, len),
        }
    }

    /// Waits until a file's bytes are on the disk.
    fn sync(&mut self, kind: Kind, file: u32) -> Result<(), Failed> {
        match self {
            Standing::Closed(_) => Err(Failed),
            Standing::Writes(disk) => disk.sync(kind, file),
            Standing::Reads(disk) => disk.sync(kind, file),
        }
    }
}

impl<R: SilentFolders + Drop> Disk for RealDisk<R>
where
    R::Folder: Drop,
{
    ghost tells = { false };

    ghost reading = { λ _. no_files };

    ghost images = { λ _ _. ⊥ };

    ghost moment = { λ _. 0 };

    ghost images_since = { λ _ _ _. ⊥ };

    ghost faults = { λ disk. disk.faults };

    fn files(&mut self, kind: Kind) -> Result<u32, Failed> {
        self.open();
        let answer = self.standing.files(kind);
        counted(&mut self.faults, answer)
    }

    fn create(&mut self, kind: Kind) -> Result<u32, Failed> {
        self.open();
        let answer = self.standing.create(kind);
        counted(&mut self.faults, answer)
    }

    fn len(&mut self, kind: Kind, file: u32) -> Result<u64, Failed> {
        self.open();
        let answer = self.standing.len(kind, file);
        counted(&mut self.faults, answer)
    }

    fn read(&mut self, kind: Kind, file: u32, at: u64, into: &mut [u8]) -> Result<(), Failed> {
        self.open();
        let answer = self.standing.read(kind, file, at, into);
        counted(&mut self.faults, answer)
    }

    fn write_at(&mut self, kind: Kind, file: u32, at: u64, bytes: &[u8]) -> Result<(), Failed> {
        self.open();
        let answer = self.standing.write_at(kind, file, at, bytes);
        counted(&mut self.faults, answer)
    }

    fn cut(&mut self, kind: Kind, file: u32, len: u64) -> Result<(), Failed> {
        self.open();
        let answer = self.standing.cut(kind, file, len);
        counted(&mut self.faults, answer)
    }

    fn sync(&mut self, kind: Kind, file: u32) -> Result<(), Failed> {
        self.open();
        let answer = self.standing.sync(kind, file);
        counted(&mut self.faults, answer)
    }

    fn faults(&self) -> u64 {
        self.faults
    }

    ghost reading_is_image = { λ disk tells. Prim.cc };

    ghost no_more_files = { λ disk image kind there. absurd there };

    ghost now_counts = { λ disk t image earlier there. absurd there };

    ghost now_only = { λ disk image there. absurd there };

    ghost earlier = { λ disk t s image le there. absurd there };
}
