//! How a folder is found, made and held.
ghost use Rattle.std.specs.Prelude.{◌≡◌, Bool, IsTrue, Option, Some, None, IfOk, IfErr, OnOk};
ghost use Rattle.std.specs.IoError.{error_kind};
ghost use Rattle.std.specs.declared.io.ErrorKind.TheVariants.{NotFound};
ghost use Rattle.folder_model.specs.Folder.{FolderPast, IsUnfailed};
ghost use Rattle.folder_model.specs.Found.{IsMadeThere};

use crate::folder::Folder;
use std::io;

/// Who else may hold a folder.
#[derive(Clone, Copy, PartialEq, Eq)]
pub enum Lock {
    /// Nobody. Who has it may write.
    Alone,
    /// Others that read.
    Shared,
}

/// The path of a folder, where it is found or made. All calls are about the one folder at that path.
///
/// What is there is said where the folder tells its past, and where nobody else comes: other processes may make the folder and write
/// in it as long as this one doesn't hold it, and of what they do nothing is known.
pub trait Folders {
    /// A folder that is held.
    type Folder: Folder;

    /// Whether no other process comes between the last call and the next one.
    ghost alone: { Self → Bool };

    /// What the last call left there: no folder, or one with this past. While this process holds the folder that is anything.
    ghost found: { Self → Option FolderPast };

    /// Makes the folder, without files. One that is there is refused with `AlreadyExists`.
    fn make_folder(&mut self) -> io::Result<()>
        ensures { IsTrue Self.Folder.tells → IsTrue (alone self.old) → OnOk result (IsMadeThere (found self.old) (found self.new)) };

    /// Opens the folder and locks it. One that another process holds is refused with `WouldBlock`, one that isn't there with
    /// `NotFound`, and no other one so. Where the folder tells its past, two things of it are trusted: that no sync in it has failed
    /// since the machine was started, and that no file was removed or renamed there since, which a crash might undo until the folder
    /// is synced.
    fn hold(&mut self, lock: Lock) -> io::Result<Self::Folder>
        ensures unfailed { IsTrue Self.Folder.tells → IfOk result (λ folder. IsUnfailed (Self.Folder.past folder)) }
        ensures there { IsTrue Self.Folder.tells → IsTrue (alone self.old) → IfOk result
            (λ folder. found self.old ≡ Some (Self.Folder.past folder)) }
        ensures none { IsTrue Self.Folder.tells → IsTrue (alone self.old) → IfErr result
            (λ error. error_kind error ≡ NotFound → found self.old ≡ None) };

    /// Lets the folder go that was held, so that another process may hold it.
    fn let_go(&mut self, folder: Self::Folder)
        ensures { IsTrue Self.Folder.tells → found self.new ≡ Some (Self.Folder.past folder) };

    /// Whether a symbolic link is at the path, wherever it leads.
    fn is_link(&mut self) -> io::Result<bool>;

    /// Fails where this process may not make files in the folder.
    fn check_writable(&mut self) -> io::Result<()>;

    /// Fails where this process may not make files in the folder around it.
    fn check_around(&mut self) -> io::Result<()>;
}
