//! The files of a disk in memory.
ghost use Rattle.std.specs.Prelude.{◌≡◌, ◌+◌, ◌-◌, ◌^◌, ◌<◌, min, [], ◌∷◌, ◌++◌, length, get_or, set, sum_by, take, IfOk, OnOk, OnErr};
ghost use Rattle.disk_model.specs.Changes.{done};
ghost use Rattle.disk_model.specs.declared.change.Change.TheVariants.{HalfMade};
ghost use Rattle.disk_model.specs.Image.{files_of, file_count, file_of, with_file, with_new, no_files, written};

use crate::Kind;
use crate::change::Change;
use crate::file::File;
use capture::Memory;
use std::alloc::Global;
use std::marker::Model;

/// The files of a disk in memory, fewer than 2^32 of each kind, which a contract sees as an image.
#[derive(Drop)]
pub struct Contents {
    warc: Vec<File>,
    cdxj: Vec<File>,
}

impl Model for Contents {
    ghost use Rattle.std.specs.Prelude.{◌<◌, ◌^◌, length};
    ghost use Rattle.disk_model.specs.Image.{Image};

    ghost Value = { Image };

    ghost view = { λ c. record { warc = c.warc.items; cdxj = c.cdxj.items } };

    ghost invariant = { λ c. (length c.warc.items < 2 ^ 32) × (length c.cdxj.items < 2 ^ 32) };
}

impl Contents {
    /// No files. Takes no memory.
    pub fn empty(alloc: Global) -> Contents
        ensures { result ≡ no_files }
    {
        Contents {
            warc: Vec::new(alloc),
            cdxj: Vec::new(alloc),
        }
    }

    /// The files of a kind.
    #[tactic(auto, unfolding(crate::specs::Image::files_of))]
    pub fn files(&self, kind: Kind) -> &[File]
        ensures files { result.now ≡ files_of self.now kind }
        ensures count { length result.now < 2 ^ 32 }
    {
        match kind {
            Kind::Warc => self.warc.as_slice(),
            Kind::Cdxj => self.cdxj.as_slice(),
        }
    }

    /// The bytes of a file.
    #[tactic(auto, unfolding(crate::specs::Image::file_of))]
    pub fn file(&self, kind: Kind, file: u32) -> &[u8]
        requires { file < file_count self.now kind }
        ensures { result.now ≡ file_of self.now kind file }
    {
        let files = self.files(kind);
        files[file as usize].as_slice()
    }

    /// The same files in memory of their own.
    pub fn copy(&self) -> Result<Contents, Memory>
        ensures { IfOk result (λ contents. contents ≡ self.now) }
    {
        let warc = copy_files(*self.warc.allocator(), self.warc.as_slice())?;
        let cdxj = copy_files(*self.cdxj.allocator(), self.cdxj.as_slice())?;
        Ok(Contents { warc, cdxj })
    }

    /// The sum of the lengths of the files of a kind, which stands still at its type's end.
    pub fn byte_sum(&self, kind: Kind) -> u64
        ensures { result ≡ min (sum_by length (files_of self.now kind)) (2 ^ 64 - 1) }
    {
        length_sum(self.files(kind))
    }

    /// Makes a change. One of a file that isn't there does nothing.
    pub fn apply(&mut self, change: &Change) -> Result<(), Memory>
        ensures ok { OnOk result (self.new ≡ done change.now self.old) }
        ensures err { OnErr result (self.new ≡ self.old) }
    {
        match change {
            Change::Wrote {
                kind,
                file,
                at,
                bytes,
            } => self.write_at(*kind, *file, *at, bytes.as_slice()),
            Change::Shortened { kind, file, len } => {
                self.cut(*kind, *file, *len);
                Ok(())
            }
            Change::Made { kind } => self.create(*kind),
            Change::HalfMade { kind, file } => self.create_next(*kind, *file),
            Change::Synced { .. } => Ok(()),
        }
    }

    /// Writes bytes into a file at an offset.
    #[tactic(auto, unfolding(crate::specs::Image::files_of, crate::specs::Image::with_files, crate::specs::Image::file_of, crate::specs::Image::with_file))]
    pub fn write_at(&mut self, kind: Kind, file: u32, at: u64, bytes: &[u8]) -> Result<(), Memory>
        ensures ok { OnOk result (self.new ≡ with_file self.old kind file
            (written (file_of self.old kind file) at bytes.now)) }
        ensures err { OnErr result (self.new ≡ self.old) }
    {
        match kind {
            Kind::Warc => write_in(&mut self.warc, file, at, bytes),
            Kind::Cdxj => write_in(&mut self.cdxj, file, at, bytes),
        }
    }

    /// Cuts a file to a length.
    #[tactic(auto, unfolding(crate::specs::Image::files_of, crate::specs::Image::with_files, crate::specs::Image::file_of, crate::specs::Image::with_file))]
    fn cut(&mut self, kind: Kind, file: u32, len: u64)
        ensures { self.new ≡ with_file self.old kind file (take len (file_of self.old kind file)) }
    {
        match kind {
            Kind::Warc => cut_in(&mut self.warc, file, len),
            Kind::Cdxj => cut_in(&mut self.cdxj, file, len),
        }
    }

    /// Makes an empty file.
    #[tactic(auto, unfolding(crate::specs::Image::files_of, crate::specs::Image::with_files, crate::specs::Image::with_new))]
    fn create(&mut self, kind: Kind) -> Result<(), Memory>
        ensures ok { OnOk result (self.new ≡ with_new self.old kind) }
        ensures err { OnErr result (self.new ≡ self.old) }
    {
        match kind {
            Kind::Warc => create_in(&mut self.warc),
            Kind::Cdxj => create_in(&mut self.cdxj),
        }
    }

    /// Makes an empty file where it is the next one.
    fn create_next(&mut self, kind: Kind, file: u32) -> Result<(), Memory>
        ensures ok { OnOk result (self.new ≡ done (HalfMade kind file) self.old) }
        ensures err { OnErr result (self.new ≡ self.old) }
    {
        let next = self.files(kind).len();
        if file as usize == next {
            return self.create(kind);
        }
        Ok(())
    }
}

/// Copies of the files.
fn copy_files(alloc: Global, files: &[File]) -> Result<Vec<File>, Memory>
    ensures { IfOk result (λ copies. copies.items ≡ files.now) }
{
    let mut copies = Vec::with_capacity(alloc, files.len())?;
    for file in files {
        copies.push(file.copy()?)?;
    }
    Ok(copies)
}

/// Writes bytes into a file at an offset.
fn write_in(files: &mut Vec<File>, file: u32, at: u64, bytes: &[u8]) -> Result<(), Memory>
    ensures ok { OnOk result (files.new.items ≡ set files.old.items file
        (written (get_or files.old.items file []) at bytes.now)) }
    ensures err { OnErr result (files.new.items ≡ files.old.items) }
{
    let number = file as usize;
    if number >= files.len() {
        return Ok(());
    }
    files[number].write_at(at, bytes)
}

/// Cuts a file to a length.
fn cut_in(files: &mut Vec<File>, file: u32, len: u64)
    ensures { files.new.items ≡ set files.old.items file (take len (get_or files.old.items file [])) }
{
    let number = file as usize;
    if number < files.len() {
        files[number].cut(len);
    }
}

/// Puts an empty file behind the others.
fn create_in(files: &mut Vec<File>) -> Result<(), Memory>
    requires { length files.old.items < 2 ^ 32 }
    ensures ok { OnOk result (files.new.items ≡ files.old.items ++ [] ∷ []) }
    ensures err { OnErr result (files.new.items ≡ files.old.items) }
    ensures count { length files.new.items < 2 ^ 32 }
{
    if files.len() >= u32::MAX as usize {
        return Err(Memory);
    }
    let empty = File::empty(*files.allocator());
    if files.push(empty).is_err() {
        return Err(Memory);
    }
    Ok(())
}

/// The sum of the lengths, which stands still at its type's end.
fn length_sum(files: &[File]) -> u64
    ensures { result ≡ min (sum_by length files.now) (2 ^ 64 - 1) }
{
    let mut sum = 0u64;
    for file in files {
        sum = sum.saturating_add(file.as_slice().len() as u64);
    }
    sum
}
