//! The open files of a folder that is held.
ghost use Rattle.std.specs.Prelude.{◌≡◌, IsTrue, None, IfOk, OnOk};
ghost use Rattle.folder_model.specs.Folder.{contents_of};
ghost use Rattle.held_folder.specs.Held.{AreHeld};
ghost use Rattle.folder_files.specs.OpenFiles.{AreOthers, IsOpen};

use crate::held::Held;
use crate::reasons::{changed, stopped};
use disk_model::Kind;
use folder_files::{FileNames, OpenOne, is_as_left, is_at_name, listed, moved, open_one, unknown};
use folder_model::{Access, Folder};
use std::io;

impl<F: Folder, N: FileNames> Held<F, N> {
    /// Takes a file to read it, one that is open or else opened now.
    pub(crate) fn to_read(&mut self, kind: Kind, number: u32) -> io::Result<OpenOne<F::File>>
        requires { IsTrue F.tells → AreHeld N.name F.name_of F.past self.old }
        ensures this { IfOk result (λ one. (one.kind ≡ kind) × (one.number ≡ number)) }
        ensures open { IsTrue F.tells → IfOk result (IsOpen N.name F.name_of (F.past self.new.timed.folder)) }
        ensures others { IsTrue F.tells → AreHeld N.name F.name_of F.past self.new }
        ensures same { IsTrue F.tells → F.past self.new.timed.folder ≡ F.past self.old.timed.folder }
        ensures rest { self.new ≡ record self.old { timed = record self.old.timed { folder = self.new.timed.folder }; files = self.new.files } }
    {
        match self.files.take_for_reading(kind, number) {
            Some(one) => Ok(one),
            None => self.opened(kind, number, Access::Read),
        }
    }

    /// Takes a file to sync it, one that is open or else opened now, which isn't another than the one that was left.
    pub(crate) fn to_sync(&mut self, kind: Kind, number: u32) -> io::Result<OpenOne<F::File>>
        requires { IsTrue F.tells → AreHeld N.name F.name_of F.past self.old }
        ensures this { IfOk result (λ one. (one.kind ≡ kind) × (one.number ≡ number)) }
        ensures open { IsTrue F.tells → IfOk result (IsOpen N.name F.name_of (F.past self.new.timed.folder)) }
        ensures others { IsTrue F.tells → AreHeld N.name F.name_of F.past self.new }
        ensures same { IsTrue F.tells → F.past self.new.timed.folder ≡ F.past self.old.timed.folder }
        ensures rest { self.new ≡ record self.old { timed = record self.old.timed { folder = self.new.timed.folder }; files = self.new.files } }
    {
        let one = self.to_read(kind, number)?;
        self.checked(one)
    }

    /// Takes a file to write it, one that is open for that or else opened now, which isn't another than the one that was left. No
    /// other place has it then.
    pub(crate) fn to_write(&mut self, kind: Kind, number: u32) -> io::Result<OpenOne<F::File>>
        requires { IsTrue F.tells → AreHeld N.name F.name_of F.past self.old }
        ensures this { IfOk result (λ one. (one.kind ≡ kind) × (one.number ≡ number)) }
        ensures open { IsTrue F.tells → IfOk result (IsOpen N.name F.name_of (F.past self.new.timed.folder)) }
        ensures others { IsTrue F.tells → AreHeld N.name F.name_of F.past self.new }
        ensures apart { AreOthers kind number self.new.files }
        ensures same { IsTrue F.tells → F.past self.new.timed.folder ≡ F.past self.old.timed.folder }
        ensures trusted { IsTrue F.tells → self.new.trust ≡ self.old.trust }
        ensures rest { OnOk result
            (self.new ≡ record self.old { timed = record self.old.timed { folder = self.new.timed.folder }; files = self.new.files }) }
        ensures all { self.new
            ≡ record self.old { timed = record self.old.timed { folder = self.new.timed.folder }; trust = self.new.trust; files = self.new.files } }
    {
        match self.files.take_for_writing(kind, number) {
            Some(one) => self.as_left(one),
            None => self.opened_as_left(kind, number),
        }
    }

    /// An open file that is as long as this process left it. Of one that isn't, others changed it, and the disk gives up: what it
    /// would write there may not be found again. A folder that tells its past has no others.
    fn as_left(&mut self, one: OpenOne<F::File>) -> io::Result<OpenOne<F::File>>
        requires { IsTrue F.tells → IsOpen N.name F.name_of (F.past self.old.timed.folder) one }
        ensures this { IfOk result (λ it. it ≡ one) }
        ensures same { IsTrue F.tells → F.past self.new.timed.folder ≡ F.past self.old.timed.folder }
        ensures trusted { IsTrue F.tells → self.new.trust ≡ self.old.trust }
        ensures rest { OnOk result (self.new ≡ record self.old { timed = record self.old.timed { folder = self.new.timed.folder } }) }
        ensures all { self.new ≡ record self.old {
          timed = record self.old.timed { folder = self.new.timed.folder };
          trust = self.new.trust;
          files = record self.old.files { left = self.new.files.left };
        } }
    {
        match self.timed.folder.len(&one.file) {
            Ok(len) => {
                if len == one.len {
                    return Ok(one);
                }
                self.trust.gave_up = true;
                Err(changed())
            }
            Err(error) => {
                self.files.leave(one);
                Err(error)
            }
        }
    }

    /// Opens a file to write it.
    fn opened_as_left(&mut self, kind: Kind, number: u32) -> io::Result<OpenOne<F::File>>
        ensures this { IfOk result (λ one. (one.kind ≡ kind) × (one.number ≡ number)) }
        ensures open { IsTrue F.tells → IfOk result (IsOpen N.name F.name_of (F.past self.new.timed.folder)) }
        ensures same { IsTrue F.tells → F.past self.new.timed.folder ≡ F.past self.old.timed.folder }
        ensures rest { self.new ≡ record self.old {
          timed = record self.old.timed { folder = self.new.timed.folder };
          files = record self.old.files { replaced = self.new.files.replaced };
        } }
    {
        let one = self.opened(kind, number, Access::Update)?;
        self.checked(one)
    }

    /// A file that isn't another than the one that was left under its name.
    fn checked(&mut self, one: OpenOne<F::File>) -> io::Result<OpenOne<F::File>>
        ensures this { IfOk result (λ it. it ≡ one) }
        ensures same { IsTrue F.tells → F.past self.new.timed.folder ≡ F.past self.old.timed.folder }
        ensures rest { self.new ≡ record self.old {
          timed = record self.old.timed { folder = self.new.timed.folder };
          files = record self.old.files { replaced = self.new.files.replaced };
        } }
    {
        match is_as_left(&mut self.timed.folder, &self.files.left, &one) {
            Ok(true) => Ok(one),
            Ok(false) => Err(self.note_replaced()),
            Err(error) => Err(error),
        }
    }

    /// Opens a file, and asks for its length. One that isn't known is another process's, or none. To be written none is opened once
    /// one was replaced.
    fn opened(&mut self, kind: Kind, number: u32, access: Access) -> io::Result<OpenOne<F::File>>
        ensures this { IfOk result (λ one. (one.kind ≡ kind) × (one.number ≡ number)) }
        ensures open { IsTrue F.tells → IfOk result (IsOpen N.name F.name_of (F.past self.new.timed.folder)) }
        ensures same { IsTrue F.tells → F.past self.new.timed.folder ≡ F.past self.old.timed.folder }
        ensures rest { self.new ≡ record self.old { timed = record self.old.timed { folder = self.new.timed.folder } } }
    {
        if self.known(kind) <= number {
            return Err(unknown());
        }
        if let Access::Update = access
            && self.files.replaced
        {
            return Err(stopped());
        }
        open_one::<F, N>(&mut self.timed.folder, self.alloc, kind, number, access)
    }

    /// Keeps a file that is still at its name.
    pub(crate) fn keep_at_name(&mut self, one: OpenOne<F::File>) -> io::Result<()>
        requires others { IsTrue F.tells → AreHeld N.name F.name_of F.past self.old }
        requires open { IsTrue F.tells → IsOpen N.name F.name_of (F.past self.old.timed.folder) one }
        ensures open { IsTrue F.tells → AreHeld N.name F.name_of F.past self.new }
        ensures same { IsTrue F.tells → F.past self.new.timed.folder ≡ F.past self.old.timed.folder }
        ensures rest { self.new ≡ record self.old { timed = record self.old.timed { folder = self.new.timed.folder }; files = self.new.files } }
    {
        match is_at_name(&mut self.timed.folder, &one.file) {
            Ok(true) => {
                self.files.keep(one);
                Ok(())
            }
            Ok(false) => {
                self.files.leave(one);
                Err(self.note_replaced())
            }
            Err(error) => {
                self.files.leave(one);
                Err(error)
            }
        }
    }

    /// Why a call of a file is refused that isn't at its name, or isn't as it was left. Where the folder was moved it may be put
    /// back; where it is at its path, this process writes no more.
    fn note_replaced(&mut self) -> io::Error
        ensures same { IsTrue F.tells → F.past self.new.timed.folder ≡ F.past self.old.timed.folder }
        ensures rest { self.new ≡ record self.old {
          timed = record self.old.timed { folder = self.new.timed.folder };
          files = record self.old.files { replaced = self.new.files.replaced };
        } }
    {
        match self.timed.folder.is_in_place() {
            Ok(true) => {
                self.files.replaced = true;
                moved()
            }
            Ok(false) => moved(),
            Err(error) => error,
        }
    }

    /// Whether the folder surely has no file of this number.
    pub(crate) fn lacks(&mut self, kind: Kind, number: u32) -> bool
        ensures none { IsTrue F.tells → IsTrue result → contents_of (F.past self.new.timed.folder) (N.name kind number) ≡ None }
        ensures same { IsTrue F.tells → F.past self.new.timed.folder ≡ F.past self.old.timed.folder }
        ensures rest { self.new ≡ record self.old { timed = record self.old.timed { folder = self.new.timed.folder } } }
    {
        match listed::<F, N>(&mut self.timed.folder, self.alloc) {
            Ok(counts) => counts.of(kind) <= number,
            Err(_) => false,
        }
    }
}
