//! Where a folder in memory is found, and who else comes there.
ghost use Rattle.std.specs.Prelude.{◌≡◌, IsTrue, Some, None, IfOk, IfErr};
ghost use Rattle.std.specs.IoError.{error_kind};
ghost use Rattle.std.specs.declared.io.ErrorKind.TheVariants.{NotFound};
ghost use Rattle.folder_model.specs.Found.{IsFoundAfterCrash};
ghost use Rattle.memory_folder.specs.Found.{past_found, found_in, is_alone};

use crate::memory_folder::MemoryFolder;
use crate::plan::Plan;
use capture::Memory;
use folder_model::{Folder, Folders, Lock};
use std::alloc::Global;
use std::io::ErrorKind;
use std::{io, mem};

/// Another process that comes before a call. It makes the folder where there is none, makes a file that isn't there, writes to it, and
/// syncs all that, or nothing of it. Where the folder is held then it can't come in, and does nothing.
#[derive(Drop)]
pub struct Visit {
    /// Before which call it comes, numbered from 0.
    pub call: u64,
    /// The file's name.
    pub name: String,
    /// What it writes.
    pub bytes: Vec<u8>,
    /// Whether it syncs.
    pub synced: bool,
}

/// One folder in memory, which is there or not. While it is held nobody else has it: a second `hold` is refused.
#[derive(Drop)]
pub struct MemoryFolders {
    /// The folder, where it is there and not held.
    pub folder: Option<MemoryFolder>,
    /// Which calls fail, while it isn't held.
    pub plan: Plan,
    /// Who else comes.
    pub visits: Vec<Visit>,
    held: bool,
    alloc: Global,
}

impl MemoryFolders {
    /// This folder, where there is one. No call fails, and nobody else comes.
    pub fn new(alloc: Global, folder: Option<MemoryFolder>) -> MemoryFolders
        ensures folder { result.folder ≡ folder }
        ensures alone { IsTrue (is_alone result) }
    {
        MemoryFolders {
            folder,
            plan: Plan::none(alloc),
            visits: Vec::new(alloc),
            held: false,
            alloc,
        }
    }

    /// Stops the machine, as a crash now may, and starts it again, for a folder that nobody holds. The choices are those of
    /// [`MemoryFolder::stop`]. Then no call fails, and nobody else comes.
    pub fn stop(&self, choice: u32) -> Result<MemoryFolders, Memory>
        ensures left { IfOk result (λ left. IsFoundAfterCrash (found_in self.now) (found_in left)) }
        ensures alone { IfOk result (λ left. IsTrue (is_alone left)) }
    {
        let left = left_of(&self.folder, choice)?;
        Ok(MemoryFolders::new(self.alloc, left))
    }

    /// Lets others come who come before this call, counts it, and says whether it is to fail.
    fn begin(&mut self) -> bool
        ensures { IsTrue (is_alone self.old) → self.new.folder ≡ self.old.folder }
    {
        if !self.held {
            self.visit();
        }
        self.plan.begin()
    }

    /// Lets others come who come before this call.
    fn visit(&mut self)
        ensures { IsTrue (is_alone self.old) → self.new.folder ≡ self.old.folder }
    {
        if self.visits.as_slice().is_empty() {
            return;
        }
        for visit in self.visits.as_slice() {
            if visit.call == self.plan.calls {
                come(self.alloc, &mut self.folder, visit);
            }
        }
    }

    /// Fails where a call is to fail that does nothing.
    fn check(&mut self) -> io::Result<()> {
        if self.begin() {
            return Err(io::Error::from(ErrorKind::Other));
        }
        Ok(())
    }

    /// Takes the folder out, where it is there.
    fn take(&mut self) -> io::Result<MemoryFolder>
        ensures there { IfOk result (λ folder. self.old.folder ≡ Some folder) }
        ensures none { IfErr result (λ error. error_kind error ≡ NotFound → self.old.folder ≡ None) }
    {
        match self.folder.take() {
            Some(folder) => Ok(folder),
            None if self.held => Err(io::Error::from(ErrorKind::WouldBlock)),
            None => Err(io::Error::from(ErrorKind::NotFound)),
        }
    }

    /// Puts it where it is found.
    fn put(&mut self, folder: MemoryFolder)
        ensures { self.new.folder ≡ Some folder }
    {
        self.folder = Some(folder);
    }
}

/// What a crash leaves of a folder, where there is one.
fn left_of(folder: &Option<MemoryFolder>, choice: u32) -> Result<Option<MemoryFolder>, Memory>
    ensures { IfOk result (λ left. IsFoundAfterCrash (past_found folder.now) (past_found left)) }
{
    match folder {
        Some(folder) => folder.stop(choice),
        None => Ok(None),
    }
}

/// Does what another process does.
fn come(alloc: Global, place: &mut Option<MemoryFolder>, visit: &Visit) {
    if place.is_none() {
        *place = Some(MemoryFolder::empty(alloc, false));
    }
    if let Some(folder) = place {
        let _ = visit_folder(folder, visit);
    }
}

/// Makes a file, writes to it, and syncs all or nothing.
fn visit_folder(folder: &mut MemoryFolder, visit: &Visit) -> io::Result<()> {
    let file = folder.make(visit.name.as_str())?;
    folder.write_at(&file, visit.bytes.as_slice(), 0)?;
    if visit.synced {
        folder.sync_file(&file)?;
        folder.sync_folder()?;
        folder.sync_around()?;
    }
    Ok(())
}

impl Folders for MemoryFolders {
    type Folder = MemoryFolder;

    ghost alone = { is_alone };

    ghost found = { found_in };

    fn make_folder(&mut self) -> io::Result<()> {
        if self.begin() {
            return Err(io::Error::from(ErrorKind::Other));
        }
        if self.held {
            return Err(io::Error::from(ErrorKind::AlreadyExists));
        }
        if self.folder.is_some() {
            return Err(io::Error::from(ErrorKind::AlreadyExists));
        }
        self.folder = Some(MemoryFolder::empty(self.alloc, false));
        Ok(())
    }

    fn hold(&mut self, lock: Lock) -> io::Result<MemoryFolder> {
        let _ = lock;
        if self.begin() {
            return Err(io::Error::from(ErrorKind::Other));
        }
        let mut folder = self.take()?;
        if !folder.store.is_unfailed() {
            self.put(folder);
            return Err(io::Error::from(ErrorKind::Other));
        }
        folder.plan = mem::replace(&mut self.plan, Plan::none(self.alloc));
        self.held = true;
        Ok(folder)
    }

    fn let_go(&mut self, folder: MemoryFolder) {
        let mut folder = folder;
        self.plan = mem::replace(&mut folder.plan, Plan::none(self.alloc));
        self.put(folder);
        self.held = false;
    }

    fn is_link(&mut self) -> io::Result<bool> {
        if self.begin() {
            return Err(io::Error::from(ErrorKind::Other));
        }
        Ok(false)
    }

    fn check_writable(&mut self) -> io::Result<()> {
        self.check()
    }

    fn check_around(&mut self) -> io::Result<()> {
        self.check()
    }
}
