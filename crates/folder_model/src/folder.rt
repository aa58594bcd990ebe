//! A folder that this process holds: what the file system's calls do in it.
ghost use Rattle.std.specs.Prelude.{◌≡◌, ◌≢◌, ◌⊎◌, ◌≤◌, ℕ, Bool, IsTrue, List, None, length, take, drop, is_ok, IfOk, OnOk, OnErr};
ghost use Rattle.std.specs.Io.{ReadsAtMost, WritesAtMost};
ghost use Rattle.folder_model.specs.Calls.{Lists, MayMake, WritesInPart, CutsInPart};
ghost use Rattle.folder_model.specs.File.{Made, Wrote, Shortened, Synced};
ghost use Rattle.folder_model.specs.Folder.{FolderPast, SyncedFolder, SyncedAround, did, did_to, contents_of, bytes_of};

use crate::access::Access;
use crate::names::Names;
use std::io;

/// A folder of files that this process holds by a lock, until the value is dropped. Who writes has it alone, so nothing is
/// done in it but by these calls; among those that share it nobody writes.
///
/// What the calls do is said of the folder's past, from which follow what reads find (`contents_of`) and what a crash may
/// leave (`MayLeave`). A folder whose type doesn't tell its past says nothing of either.
///
/// No call removes or renames a file, and nobody else does so in a folder that is held.
pub trait Folder {
    /// An open file, which is closed where it is dropped.
    type File: Drop;

    /// Whether folders of this type tell their past.
    ghost tells: { Bool };

    /// What was done in the folder.
    ghost past: { Self → FolderPast };

    /// The name of an open file.
    ghost name_of: { Self.File → List ℕ };

    /// Gives the name of each file that is there, in any order. Names that aren't UTF-8 are passed over.
    fn list<N: Names>(&mut self, names: &mut N) -> io::Result<()>
        ensures lists { IsTrue tells → OnOk result (Lists (contents_of (past self.old)) (N.given names.old) (N.given names.new)) }
        ensures past { IsTrue tells → past self.new ≡ past self.old };

    /// Opens a file that is there.
    fn open(&mut self, name: &str, access: Access) -> io::Result<Self::File>
        ensures named { IsTrue tells → IfOk result (λ file. name_of file ≡ name.now) }
        ensures there { IsTrue tells → OnOk result (contents_of (past self.old) name.now ≢ None) }
        ensures past { IsTrue tells → past self.new ≡ past self.old };

    /// Makes an empty file, to be read and written. One that is there is refused (`AlreadyExists`). Until the folder is
    /// synced a crash may leave it there or not, and a call that fails may have made it.
    fn make(&mut self, name: &str) -> io::Result<Self::File>
        ensures named { IsTrue tells → IfOk result (λ file. name_of file ≡ name.now) }
        ensures new { IsTrue tells → OnOk result (contents_of (past self.old) name.now ≡ None) }
        ensures made { IsTrue tells → OnOk result (past self.new ≡ did_to (past self.old) name.now Made) }
        ensures partial { IsTrue tells → OnErr result (MayMake name.now (past self.old) (past self.new)) };

    /// The length of a file in bytes.
    fn len(&mut self, file: &Self::File) -> io::Result<u64>
        ensures length { IsTrue tells → IfOk result (λ len. len ≡ length (bytes_of (past self.old) (name_of file.now))) }
        ensures past { IsTrue tells → past self.new ≡ past self.old };

    /// Reads at a place, and answers how many bytes stand at the front of `into` now: 0 only at the file's end, or where none were asked for.
    fn read_at(&mut self, file: &Self::File, into: &mut [u8], at: u64) -> io::Result<usize>
        ensures bound { ReadsAtMost result into.new }
        ensures gives { IsTrue tells → IfOk result
            (λ n. take n into.new ≡ take n (drop at (bytes_of (past self.old) (name_of file.now)))) }
        ensures end { IsTrue tells → IfOk result
            (λ n. n ≡ 0 → (length into.new ≡ 0) ⊎ (length (bytes_of (past self.old) (name_of file.now)) ≤ at)) }
        ensures past { IsTrue tells → past self.new ≡ past self.old };

    /// Writes at a place that isn't past the end, and answers how many bytes of the front of `piece` were taken. Until a
    /// sync a crash may leave any bytes in their place, and any length between the old and the new. A call that fails may
    /// have written the first ones of the bytes.
    fn write_at(&mut self, file: &Self::File, piece: &[u8], at: u64) -> io::Result<usize>
        requires { IsTrue tells → at ≤ length (bytes_of (past self.old) (name_of file.now)) }
        ensures bound { WritesAtMost result piece.now }
        ensures takes { IsTrue tells → IfOk result
            (λ n. past self.new ≡ did_to (past self.old) (name_of file.now) (Wrote at (take n piece.now) 0)) }
        ensures partial { IsTrue tells → OnErr result
            (WritesInPart (name_of file.now) at piece.now (past self.old) (past self.new)) };

    /// Cuts a file to a length that isn't more than its own. Until a sync a crash may leave any length between, and a call
    /// that fails may have cut some of it.
    fn set_len(&mut self, file: &Self::File, len: u64) -> io::Result<()>
        requires { IsTrue tells → len ≤ length (bytes_of (past self.old) (name_of file.now)) }
        ensures cut { IsTrue tells → OnOk result (past self.new ≡ did_to (past self.old) (name_of file.now) (Shortened len 0)) }
        ensures partial { IsTrue tells → OnErr result (CutsInPart (name_of file.now) len (past self.old) (past self.new)) };

    /// Waits until a file's bytes and its length are on the disk. A call that fails leaves in doubt what it was to write.
    fn sync_file(&mut self, file: &Self::File) -> io::Result<()>
        ensures { IsTrue tells → past self.new ≡ did_to (past self.old) (name_of file.now) (Synced (is_ok result)) };

    /// Waits until the folder's list of names is on the disk. A call that fails leaves in doubt which are.
    fn sync_folder(&mut self) -> io::Result<()>
        ensures { IsTrue tells → past self.new ≡ did (past self.old) (SyncedFolder (is_ok result)) };

    /// Waits until the list of names of the folder around it is on the disk.
    fn sync_around(&mut self) -> io::Result<()>
        ensures { IsTrue tells → past self.new ≡ did (past self.old) (SyncedAround (is_ok result)) };

    /// Whether the folder is still at the path where it was found.
    fn is_in_place(&mut self) -> io::Result<bool>
        ensures { IsTrue tells → past self.new ≡ past self.old };

    /// Whether a file is still at its name.
    fn is_at_name(&mut self, file: &Self::File) -> io::Result<bool>
        ensures { IsTrue tells → past self.new ≡ past self.old };

    /// Fails where this process may not write a file.
    fn check_writable(&mut self, name: &str) -> io::Result<()>
        ensures { IsTrue tells → past self.new ≡ past self.old };
}
