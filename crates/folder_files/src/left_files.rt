//! Files that were open to be written and aren't now. They tell whether what stands under a name is still the same file.
ghost use Rattle.std.specs.Prelude.{◌≡◌, IsTrue};

use crate::counting::absent;
use crate::open_files::OpenOne;
use disk_model::Kind;
use folder_model::Folder;
use std::io;

/// A file as it was left. It isn't closed, so that no other one gets its number (the inode's).
#[derive(Drop)]
pub(crate) struct LeftFile<T> {
    one: OpenOne<T>,
    /// The least length that it may have.
    least: u64,
    /// The greatest.
    most: u64,
}

/// The file of each kind that was left last.
#[derive(Drop)]
pub struct LeftFiles<T> {
    warc: Option<LeftFile<T>>,
    cdxj: Option<LeftFile<T>>,
}

impl<T: Drop> LeftFiles<T> {
    /// None was left.
    pub(crate) fn new() -> LeftFiles<T> {
        LeftFiles {
            warc: None,
            cdxj: None,
        }
    }

    /// Takes a file that is as long as it says, in place of the one of its kind that was left before.
    pub(crate) fn put(&mut self, one: OpenOne<T>) {
        let len = one.len;
        self.put_within(one, len, len);
    }

    /// Takes a file of which a call failed, which may have left any length up to this.
    pub(crate) fn put_torn(&mut self, one: OpenOne<T>, most: u64) {
        self.put_within(one, 0, most);
    }

    /// Takes a file whose length lies between these.
    fn put_within(&mut self, one: OpenOne<T>, least: u64, most: u64) {
        match one.kind {
            Kind::Warc => self.warc = Some(LeftFile { one, least, most }),
            Kind::Cdxj => self.cdxj = Some(LeftFile { one, least, most }),
        }
    }

    /// Closes a file, where it is here.
    pub(crate) fn forget(&mut self, kind: Kind, number: u32) {
        match kind {
            Kind::Warc => forget(&mut self.warc, number),
            Kind::Cdxj => forget(&mut self.cdxj, number),
        }
    }
}

/// Closes the file of this number, where it is here.
fn forget<T: Drop>(place: &mut Option<LeftFile<T>>, number: u32) {
    let Some(left) = place.take() else {
        return;
    };
    if left.one.number != number {
        *place = Some(left);
    }
}

/// Whether a file that was opened is the one that was left under its name, and is as long as that was left. Of one that wasn't
/// left nothing is known, and it is.
pub fn is_as_left<F: Folder>(
    folder: &mut F,
    left: &LeftFiles<F::File>,
    one: &OpenOne<F::File>,
) -> io::Result<bool>
    ensures { IsTrue F.tells → F.past folder.new ≡ F.past folder.old }
{
    match one.kind {
        Kind::Warc => is_same(folder, &left.warc, one),
        Kind::Cdxj => is_same(folder, &left.cdxj, one),
    }
}

/// The same with the one of its kind that was left.
fn is_same<F: Folder>(
    folder: &mut F,
    left: &Option<LeftFile<F::File>>,
    one: &OpenOne<F::File>,
) -> io::Result<bool>
    ensures { IsTrue F.tells → F.past folder.new ≡ F.past folder.old }
{
    match left {
        Some(left) => fits(folder, left, one),
        None => Ok(true),
    }
}

/// Whether a file that was opened is this one, where it has its number.
fn fits<F: Folder>(
    folder: &mut F,
    left: &LeftFile<F::File>,
    one: &OpenOne<F::File>,
) -> io::Result<bool>
    ensures { IsTrue F.tells → F.past folder.new ≡ F.past folder.old }
{
    if left.one.number != one.number {
        return Ok(true);
    }
    if one.len < left.least {
        return Ok(false);
    }
    if left.most < one.len {
        return Ok(false);
    }
    is_at_name(folder, &left.one.file)
}

/// Whether a file is at its name. Where none is there it isn't.
pub fn is_at_name<F: Folder>(folder: &mut F, file: &F::File) -> io::Result<bool>
    ensures { IsTrue F.tells → F.past folder.new ≡ F.past folder.old }
{
    match folder.is_at_name(file) {
        Ok(is) => Ok(is),
        Err(error) => absent(error),
    }
}
