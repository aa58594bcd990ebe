//! A folder that is held, as a disk.
ghost use Rattle.std.specs.Prelude.{◌≡◌, ◌≢◌, ◌<◌, ◌≤◌, ◌+◌, Bool, true, false, Some, IsTrue, IfOk, OnOk, length, take, drop};
ghost use Rattle.disk_model.specs.Image.{file_count, file_of};
ghost use Rattle.folder_model.specs.Folder.{SyncedFolder, SyncedAround, did, contents_of};
ghost use Rattle.folder_model.specs.Seen.{IsSeen};
ghost use Rattle.held_folder.specs.Calls.{Creates, WritesAt, Cuts, Syncs, Looks};
ghost use Rattle.held_folder.specs.Doubts.{range_of, doubt_in};
ghost use Rattle.held_folder.specs.Held.{in_folder, state_of, AreHeld};
ghost use Rattle.folder_files.specs.Counting.{IsCounted, known_of};
ghost use Rattle.held_folder.specs.State.{IsKnown, IsNew, reading, grown};

use crate::mending::sync_anew;
use crate::reasons::stopped;
use crate::trust::Trust;
use disk_model::Kind;
use folder_files::{
    Counts, FileNames, OpenFiles, OpenOne, check_in_place, end_of, inside, no_further_number,
    read_open, unknown,
};
use folder_model::{Folder, Timed, WriteFault, make_durably, write_whole};
use std::alloc::Global;
use std::io;
use std::marker::PhantomData;

/// A folder that is held, with how many files of each kind are known. Once a sync failed that can't be mended, or others changed
/// a file, it has given up, and makes, writes and syncs nothing more.
#[derive(Drop)]
pub struct Held<F: Folder, N: FileNames> {
    pub(crate) timed: Timed<F>,
    pub(crate) alloc: Global,
    pub(crate) warc: u32,
    pub(crate) cdxj: u32,
    pub(crate) trust: Trust,
    pub(crate) files: OpenFiles<F::File>,
    pub(crate) names: PhantomData<N>,
}

/// A folder that was held and isn't used, and why.
#[derive(Drop)]
pub struct Unheld<F> {
    /// The folder, to be let go.
    pub folder: F,
    /// Why it isn't used.
    pub error: io::Error,
}

impl<F: Folder + Drop, N: FileNames> Held<F, N> {
    /// A folder of which the files of each kind were counted. It and the folder around it are synced, so that all that is
    /// there outlasts a crash but for bytes that others wrote and didn't sync. Where that fails the folder is given back.
    pub fn open(folder: F, alloc: Global, counts: Counts) -> Result<Held<F, N>, Unheld<F>>
        requires { IsTrue F.tells → IsCounted N.name (F.past folder) counts.warc counts.cdxj }
        ensures known { IsTrue F.tells → IfOk result (λ held. IsKnown N.name (state_of F.past held)) }
        ensures open { IfOk result (λ held. AreHeld N.name F.name_of F.past held) }
        ensures seen { IsTrue F.tells → IfOk result
            (λ held. IsSeen N.name (contents_of (F.past folder)) (reading N.name (state_of F.past held))) }
        ensures new { IfOk result (λ held. IsNew counts.warc counts.cdxj (state_of F.past held)) }
    {
        let mut folder = folder;
        match sync_names(&mut folder) {
            Ok(()) => {}
            Err(error) => return Err(Unheld { folder, error }),
        }
        Ok(Held {
            timed: Timed::new(folder),
            alloc,
            warc: counts.warc,
            cdxj: counts.cdxj,
            trust: Trust::new(),
            files: OpenFiles::new(),
            names: PhantomData,
        })
    }

    /// The folder, whose files are closed.
    pub fn into_folder(self) -> F
        ensures { result ≡ (in_folder self).folder }
    {
        let Held { timed, .. } = self;
        let Timed { folder, .. } = timed;
        folder
    }
}

impl<F: Folder, N: FileNames> Held<F, N> {
    /// Makes the next file of a kind so that it outlasts a crash. Where one that was to be made may be there the files are to be
    /// counted first.
    pub fn create(&mut self, kind: Kind) -> io::Result<u32>
        requires known { IsTrue F.tells → IsKnown N.name (state_of F.past self.old) }
        requires open { IsTrue F.tells → AreHeld N.name F.name_of F.past self.old }
        ensures creates { Creates F.tells N.name kind (state_of F.past self.old) (state_of F.past self.new) result }
        ensures open { IsTrue F.tells → AreHeld N.name F.name_of F.past self.new }
    {
        if self.trust.gave_up || self.files.replaced {
            return Err(stopped());
        }
        if self.trust.has_further(kind) {
            return Err(stopped());
        }
        let number = self.known(kind);
        let Some(count) = number.checked_add(1) else {
            return Err(no_further_number());
        };
        check_in_place(&mut self.timed.folder)?;
        let name = N::name_of(self.alloc, kind, number)?;
        self.files.close();
        match make_durably(&mut self.timed.folder, name.as_str()) {
            Ok(file) => {
                self.timed.go_on();
                self.trust.synced(kind, number);
                self.set_known(kind, count);
                self.keep_at_name(OpenOne {
                    kind,
                    number,
                    file,
                    len: 0,
                    for_writing: true,
                })?;
                Ok(number)
            }
            Err(fault) => Err(self.note_missed(kind, number, fault)),
        }
    }

    /// Writes at a place of a file.
    pub fn write_at(&mut self, kind: Kind, file: u32, at: u64, bytes: &[u8]) -> io::Result<()>
        requires known { IsTrue F.tells → IsKnown N.name (state_of F.past self.old) }
        requires open { IsTrue F.tells → AreHeld N.name F.name_of F.past self.old }
        requires there { IsTrue F.tells → file < file_count (reading N.name (state_of F.past self.old)) kind }
        requires in_range { IsTrue F.tells → at ≤ length (file_of (reading N.name (state_of F.past self.old)) kind file) }
        ensures writes { WritesAt F.tells N.name kind file at bytes.now (state_of F.past self.old) (state_of F.past self.new) result }
        ensures open { IsTrue F.tells → AreHeld N.name F.name_of F.past self.new }
    {
        if self.trust.gave_up {
            return Err(stopped());
        }
        if self.is_unknown(kind, file) {
            return Err(unknown());
        }
        let mut one = self.to_write(kind, file)?;
        let end = match end_of(at, bytes.len(), one.len) {
            Ok(end) => end,
            Err(error) => {
                self.files.leave(one);
                return Err(error);
            }
        };
        match write_whole(&mut self.timed.folder, &one.file, at, bytes) {
            Ok(()) => {
                self.timed.go_on();
                self.trust.wrote(kind, file, at, bytes.len() as u64);
                one.len = end;
                self.files.keep(one);
                Ok(())
            }
            Err(WriteFault::Torn(error)) => {
                self.timed.go_on();
                self.trust.wrote(kind, file, at, bytes.len() as u64);
                self.files.close_torn(one, end);
                Err(error)
            }
            Err(WriteFault::Stuck(error)) => {
                self.timed.go_on();
                self.trust.wrote_part(kind, file, at, bytes.len() as u64);
                self.files.close_torn(one, end);
                Err(error)
            }
        }
    }

    /// Cuts a file to a length.
    pub fn cut(&mut self, kind: Kind, file: u32, len: u64) -> io::Result<()>
        requires known { IsTrue F.tells → IsKnown N.name (state_of F.past self.old) }
        requires open { IsTrue F.tells → AreHeld N.name F.name_of F.past self.old }
        requires there { IsTrue F.tells → file < file_count (reading N.name (state_of F.past self.old)) kind }
        requires in_range { IsTrue F.tells → len ≤ length (file_of (reading N.name (state_of F.past self.old)) kind file) }
        ensures cuts { Cuts F.tells N.name kind file len (state_of F.past self.old) (state_of F.past self.new) result }
        ensures open { IsTrue F.tells → AreHeld N.name F.name_of F.past self.new }
    {
        if self.trust.gave_up {
            return Err(stopped());
        }
        if self.is_unknown(kind, file) {
            return Err(unknown());
        }
        let mut one = self.to_write(kind, file)?;
        match inside(len, 0, one.len) {
            Ok(()) => {}
            Err(error) => {
                self.files.leave(one);
                return Err(error);
            }
        }
        match self.timed.folder.set_len(&one.file, len) {
            Ok(()) => {
                self.timed.go_on();
                self.trust.cut(kind, file);
                one.len = len;
                self.files.keep(one);
                Ok(())
            }
            Err(error) => {
                self.timed.go_on();
                self.trust.cut_part(kind, file);
                let most = one.len;
                self.files.close_torn(one, most);
                Err(error)
            }
        }
    }

    /// How many files of a kind there are.
    pub fn files(&mut self, kind: Kind) -> io::Result<u32>
        requires known { IsTrue F.tells → IsKnown N.name (state_of F.past self.old) }
        requires open { IsTrue F.tells → AreHeld N.name F.name_of F.past self.old }
        ensures count { IsTrue F.tells → IfOk result (λ count. count ≡ file_count (reading N.name (state_of F.past self.old)) kind) }
        ensures looks { Looks F.tells N.name (state_of F.past self.old) (state_of F.past self.new) }
        ensures open { IsTrue F.tells → AreHeld N.name F.name_of F.past self.new }
    {
        if self.trust.gave_up {
            return Err(stopped());
        }
        self.settle(kind)?;
        check_in_place(&mut self.timed.folder)?;
        Ok(self.known(kind))
    }

    /// The length of a file in bytes.
    pub fn len(&mut self, kind: Kind, file: u32) -> io::Result<u64>
        requires known { IsTrue F.tells → IsKnown N.name (state_of F.past self.old) }
        requires open { IsTrue F.tells → AreHeld N.name F.name_of F.past self.old }
        requires there { IsTrue F.tells → file < file_count (reading N.name (state_of F.past self.old)) kind }
        ensures length { IsTrue F.tells → IfOk result (λ len. len ≡ length (file_of (reading N.name (state_of F.past self.old)) kind file)) }
        ensures looks { Looks F.tells N.name (state_of F.past self.old) (state_of F.past self.new) }
        ensures open { IsTrue F.tells → AreHeld N.name F.name_of F.past self.new }
    {
        let one = self.to_read(kind, file)?;
        let len = one.len;
        self.files.keep(one);
        Ok(len)
    }

    /// Fills `into` with the bytes of a file from a place on.
    pub fn read(&mut self, kind: Kind, file: u32, at: u64, into: &mut [u8]) -> io::Result<()>
        requires known { IsTrue F.tells → IsKnown N.name (state_of F.past self.old) }
        requires open { IsTrue F.tells → AreHeld N.name F.name_of F.past self.old }
        requires there { IsTrue F.tells → file < file_count (reading N.name (state_of F.past self.old)) kind }
        ensures bytes { IsTrue F.tells → OnOk result
            (into.new ≡ take (length into.old) (drop at (file_of (reading N.name (state_of F.past self.old)) kind file))) }
        ensures looks { Looks F.tells N.name (state_of F.past self.old) (state_of F.past self.new) }
        ensures open { IsTrue F.tells → AreHeld N.name F.name_of F.past self.new }
    {
        let one = self.to_read(kind, file)?;
        let done = read_open(&mut self.timed.folder, &one, at, into);
        self.files.keep_after(done, one)
    }

    /// Waits until a file's bytes are on the disk. A file that isn't at its name any more isn't acknowledged.
    pub fn sync(&mut self, kind: Kind, file: u32) -> io::Result<()>
        requires known { IsTrue F.tells → IsKnown N.name (state_of F.past self.old) }
        requires open { IsTrue F.tells → AreHeld N.name F.name_of F.past self.old }
        requires there { IsTrue F.tells → file < file_count (reading N.name (state_of F.past self.old)) kind }
        ensures syncs { Syncs F.tells N.name kind file (state_of F.past self.old) (state_of F.past self.new) result }
        ensures open { IsTrue F.tells → AreHeld N.name F.name_of F.past self.new }
    {
        if self.trust.gave_up {
            return Err(stopped());
        }
        if self.is_unknown(kind, file) {
            return Err(unknown());
        }
        match self.trust.doubt(kind, file) {
            Some(range) => self.sync_again(kind, file, range.at, range.len),
            None => self.sync_once(kind, file),
        }
    }

    /// Syncs the last file of a kind, so that it is known what is written to it from then on, and which file it is.
    pub fn sync_last(&mut self, kind: Kind) -> io::Result<()>
        requires known { IsTrue F.tells → IsKnown N.name (state_of F.past self.old) }
        requires open { IsTrue F.tells → AreHeld N.name F.name_of F.past self.old }
        ensures known { IsTrue F.tells → IsKnown N.name (state_of F.past self.new) }
        ensures open { IsTrue F.tells → AreHeld N.name F.name_of F.past self.new }
        ensures same { IsTrue F.tells → reading N.name (state_of F.past self.new) ≡ reading N.name (state_of F.past self.old) }
    {
        match self.known(kind).checked_sub(1) {
            None => Ok(()),
            Some(last) => self.sync_found(kind, last),
        }
    }

    /// Syncs a file, and leaves it as it was found.
    fn sync_found(&mut self, kind: Kind, file: u32) -> io::Result<()>
        requires known { IsTrue F.tells → IsKnown N.name (state_of F.past self.old) }
        requires open { IsTrue F.tells → AreHeld N.name F.name_of F.past self.old }
        requires there { IsTrue F.tells → file < file_count (reading N.name (state_of F.past self.old)) kind }
        ensures known { IsTrue F.tells → IsKnown N.name (state_of F.past self.new) }
        ensures open { IsTrue F.tells → AreHeld N.name F.name_of F.past self.new }
        ensures same { IsTrue F.tells → reading N.name (state_of F.past self.new) ≡ reading N.name (state_of F.past self.old) }
    {
        self.sync(kind, file)?;
        self.files.leave_found(kind, file);
        Ok(())
    }

    /// Syncs a file that isn't in doubt.
    fn sync_once(&mut self, kind: Kind, file: u32) -> io::Result<()>
        requires known { IsTrue F.tells → IsKnown N.name (state_of F.past self.old) }
        requires open { IsTrue F.tells → AreHeld N.name F.name_of F.past self.old }
        requires there { IsTrue F.tells → file < file_count (reading N.name (state_of F.past self.old)) kind }
        requires ours { file < known_of self.old.warc self.old.cdxj kind }
        requires going { self.old.trust.gave_up ≡ false }
        requires sure { doubt_in (range_of self.old.trust kind) ≢ Some file }
        ensures syncs { Syncs F.tells N.name kind file (state_of F.past self.old) (state_of F.past self.new) result }
        ensures open { IsTrue F.tells → AreHeld N.name F.name_of F.past self.new }
    {
        let one = self.to_sync(kind, file)?;
        match self.timed.folder.sync_file(&one.file) {
            Ok(()) => {
                self.timed.go_on();
                self.trust.synced(kind, file);
                self.keep_at_name(one)
            }
            Err(error) => {
                self.timed.go_on();
                self.trust.failed(kind, file);
                let most = one.len;
                self.files.close_torn(one, most);
                Err(error)
            }
        }
    }

    /// Writes the range of a file that is in doubt anew, and syncs the file.
    fn sync_again(&mut self, kind: Kind, file: u32, at: u64, len: u64) -> io::Result<()>
        requires known { IsTrue F.tells → IsKnown N.name (state_of F.past self.old) }
        requires open { IsTrue F.tells → AreHeld N.name F.name_of F.past self.old }
        requires there { IsTrue F.tells → file < file_count (reading N.name (state_of F.past self.old)) kind }
        requires ours { file < known_of self.old.warc self.old.cdxj kind }
        requires going { self.old.trust.gave_up ≡ false }
        requires doubt { range_of self.old.trust kind ≡ Some (record { number = file; at = at; len = len; in_doubt = true }) }
        ensures syncs { Syncs F.tells N.name kind file (state_of F.past self.old) (state_of F.past self.new) result }
        ensures open { IsTrue F.tells → AreHeld N.name F.name_of F.past self.new }
    {
        let one = self.to_write(kind, file)?;
        match sync_anew(&mut self.timed.folder, self.alloc, &one, at, len) {
            Ok(()) => {
                self.timed.go_on();
                self.trust.synced(kind, file);
                self.keep_at_name(one)
            }
            Err(error) => {
                self.timed.go_on();
                let most = one.len;
                self.files.close_torn(one, most);
                Err(error)
            }
        }
    }

    /// How many files of a kind are known.
    pub(crate) fn known(&self, kind: Kind) -> u32
        ensures { result ≡ known_of self.now.warc self.now.cdxj kind }
    {
        match kind {
            Kind::Warc => self.warc,
            Kind::Cdxj => self.cdxj,
        }
    }

    /// Whether a file isn't one of those that are known.
    fn is_unknown(&self, kind: Kind, file: u32) -> bool
        ensures { result ≡ false → file < known_of self.now.warc self.now.cdxj kind }
    {
        self.known(kind) <= file
    }

    /// Notes how many files of a kind there are.
    pub(crate) fn set_known(&mut self, kind: Kind, count: u32)
        requires { count ≡ known_of self.old.warc self.old.cdxj kind + 1 }
        ensures state { state_of F.past self.new ≡ grown kind (state_of F.past self.old) }
        ensures same { self.new.timed ≡ self.old.timed }
        ensures files { self.new.files ≡ self.old.files }
    {
        match kind {
            Kind::Warc => self.warc = count,
            Kind::Cdxj => self.cdxj = count,
        }
    }
}

/// Waits until the names in a folder, and the folder's own, are on the disk.
fn sync_names<F: Folder>(folder: &mut F) -> io::Result<()>
    ensures { IsTrue F.tells → OnOk result (F.past folder.new ≡ did (did (F.past folder.old) (SyncedFolder true)) (SyncedAround true)) }
{
    folder.sync_folder()?;
    folder.sync_around()
}
