//! The files that stay open: the one that was written last, the one that was read last, and those that were left.
ghost use Rattle.std.specs.Prelude.{◌≡◌, ◌⊎◌, Some, None, IsTrue, false, IfSome, OnOk, OnErr};
ghost use Rattle.disk_model.specs.Image.{IsApart};
ghost use Rattle.folder_files.specs.OpenFiles.{IsLeftIn, kept};

use crate::left_files::LeftFiles;
use disk_model::Kind;
use std::io;

/// An open file, with the length that this process left. The folder is asked for it before a write alone.
#[derive(Drop)]
pub struct OpenOne<T> {
    /// Its kind.
    pub kind: Kind,
    /// Its number among those of its kind.
    pub number: u32,
    /// The file.
    pub file: T,
    /// How long it was left.
    pub len: u64,
    /// Whether it may be written.
    pub for_writing: bool,
}

/// The last volume, another file that was read last, and the file of each kind that was written and left last. A call takes its
/// file out and keeps it where it succeeds; so what a call that failed left of a file is asked of the folder again.
#[derive(Drop)]
pub struct OpenFiles<T> {
    /// The one that was written last.
    pub written: Option<OpenOne<T>>,
    /// The one that was read last.
    pub read: Option<OpenOne<T>>,
    /// Those that were open to be written, by which what is opened again under their names is known.
    pub left: LeftFiles<T>,
    /// Whether another file was found at the name of one that was open. None is opened to be written then: what it has isn't known.
    pub replaced: bool,
}

impl<T: Drop> OpenFiles<T> {
    /// None is open.
    pub fn new() -> OpenFiles<T>
        ensures written { result.written ≡ None }
        ensures read { result.read ≡ None }
    {
        OpenFiles {
            written: None,
            read: None,
            left: LeftFiles::new(),
            replaced: false,
        }
    }

    /// Leaves the file that was written last, and closes the one that was read.
    pub fn close(&mut self)
        ensures written { self.new.written ≡ None }
        ensures read { self.new.read ≡ None }
    {
        self.read = None;
        let Some(one) = self.written.take() else {
            return;
        };
        self.left.put(one);
    }

    /// The same behind a call of a file that failed, which may have left any length up to this.
    pub fn close_torn(&mut self, one: OpenOne<T>, most: u64)
        ensures written { self.new.written ≡ None }
        ensures read { self.new.read ≡ None }
    {
        self.close();
        if one.for_writing {
            self.left.put_torn(one, most);
        }
    }

    /// Leaves a file that was taken out, where it may be written. Else it is closed.
    pub fn leave(&mut self, one: OpenOne<T>)
        ensures { self.new ≡ record self.old { left = self.new.left } }
    {
        if one.for_writing {
            self.left.put(one);
        }
    }

    /// Leaves a file as it was found.
    pub fn leave_found(&mut self, kind: Kind, number: u32)
        ensures written { (self.new.written ≡ None) ⊎ (self.new.written ≡ self.old.written) }
        ensures read { (self.new.read ≡ None) ⊎ (self.new.read ≡ self.old.read) }
    {
        let Some(one) = self.take_for_reading(kind, number) else {
            return;
        };
        self.left.put(one);
    }

    /// Takes a file out that may be written, and leaves another one. One of it that may only be read is closed, since its length
    /// goes stale.
    pub fn take_for_writing(&mut self, kind: Kind, number: u32) -> Option<OpenOne<T>>
        ensures this { IfSome result (λ one. (one.kind ≡ kind) × (one.number ≡ number) × (self.old.written ≡ Some one)) }
        ensures written { IsLeftIn kind number self.old.written self.new.written }
        ensures read { IsLeftIn kind number self.old.read self.new.read }
    {
        let _stale = taken(&mut self.read, kind, number);
        let one = self.written.take()?;
        if is_this(&one, kind, number) {
            return Some(one);
        }
        self.left.put(one);
        None
    }

    /// Takes a file out that may be read.
    pub fn take_for_reading(&mut self, kind: Kind, number: u32) -> Option<OpenOne<T>>
        ensures this { IfSome result (λ one. (one.kind ≡ kind) × (one.number ≡ number)
            × ((self.old.written ≡ Some one) ⊎ (self.old.read ≡ Some one))) }
        ensures written { (self.new.written ≡ None) ⊎ (self.new.written ≡ self.old.written) }
        ensures read { (self.new.read ≡ None) ⊎ (self.new.read ≡ self.old.read) }
    {
        match taken(&mut self.written, kind, number) {
            Some(one) => Some(one),
            None => taken(&mut self.read, kind, number),
        }
    }

    /// Keeps a file open, in place of the one that was used so last.
    pub fn keep(&mut self, one: OpenOne<T>)
        ensures { self.new ≡ record (kept one self.old) { left = self.new.left } }
    {
        if one.for_writing {
            self.left.forget(one.kind, one.number);
            self.written = Some(one);
        } else {
            self.read = Some(one);
        }
    }

    /// Passes on what a call of a file answered, and keeps the file open where it was done. Else it is left.
    pub fn keep_after(&mut self, done: io::Result<()>, one: OpenOne<T>) -> io::Result<()>
        ensures passed_on { result ≡ done }
        ensures kept { OnOk done (self.new ≡ record (kept one self.old) { left = self.new.left }) }
        ensures left { OnErr done (self.new ≡ record self.old { left = self.new.left }) }
    {
        match done {
            Ok(()) => {
                self.keep(one);
                Ok(())
            }
            Err(error) => {
                self.leave(one);
                Err(error)
            }
        }
    }
}

/// Takes the file out of its place, where it is this one.
fn taken<T: Drop>(place: &mut Option<OpenOne<T>>, kind: Kind, number: u32) -> Option<OpenOne<T>>
    ensures this { IfSome result (λ one. (one.kind ≡ kind) × (one.number ≡ number) × (place.old ≡ Some one)) }
    ensures left { IsLeftIn kind number place.old place.new }
{
    let one = place.take()?;
    if is_this(&one, kind, number) {
        return Some(one);
    }
    *place = Some(one);
    None
}

/// Whether an open file is this one.
fn is_this<T>(one: &OpenOne<T>, kind: Kind, number: u32) -> bool
    ensures this { IsTrue result → (one.now.kind ≡ kind) × (one.now.number ≡ number) }
    ensures other { result ≡ false → IsApart kind number one.now.kind one.now.number }
{
    if one.kind != kind {
        return false;
    }
    one.number == number
}
