//! The bytes of one file in memory.
ghost use Rattle.std.specs.Prelude.{◌≡◌, [], take, IfOk, OnOk, OnErr};
ghost use Rattle.disk_model.specs.Image.{written};

use capture::Memory;
use std::alloc::Global;
use std::marker::Model;

/// A file in memory, which a contract sees as the list of its bytes.
#[derive(Drop)]
pub struct File {
    bytes: Vec<u8>,
}

impl Model for File {
    ghost use Rattle.std.specs.Prelude.{List, ℕ};

    ghost Value = { List ℕ };

    ghost view = { λ f. f.bytes.items };
}

impl File {
    /// A file of no bytes. Takes no memory.
    pub fn empty(alloc: Global) -> File
        ensures { result ≡ [] }
    {
        File {
            bytes: Vec::new(alloc),
        }
    }

    /// The bytes in place.
    pub fn as_slice(&self) -> &[u8]
        ensures { result.now ≡ self.now }
    {
        self.bytes.as_slice()
    }

    /// The same bytes in memory of their own.
    pub fn copy(&self) -> Result<File, Memory>
        ensures { IfOk result (λ file. file ≡ self.now) }
    {
        let bytes = Vec::from_slice(*self.bytes.allocator(), self.bytes.as_slice())?;
        Ok(File { bytes })
    }

    /// Writes bytes at an offset, over what is there and past the end. Of what is already there nothing is copied.
    pub fn write_at(&mut self, at: u64, bytes: &[u8]) -> Result<(), Memory>
        ensures ok { OnOk result (self.new ≡ written self.old at bytes.now) }
        ensures err { OnErr result (self.new ≡ self.old) }
    {
        overwrite(&mut self.bytes, at as usize, bytes)
    }

    /// Cuts the file to a length. A file that is shorter stays as it is.
    pub fn cut(&mut self, len: u64)
        ensures { self.new ≡ take len self.old }
    {
        self.bytes.truncate(len as usize);
    }
}

/// The part past the end is added first, since that alone can fail.
fn overwrite(old: &mut Vec<u8>, at: usize, bytes: &[u8]) -> Result<(), Memory>
    ensures ok { OnOk result (old.new.items ≡ written old.old.items at bytes.now) }
    ensures err { OnErr result (old.new.items ≡ old.old.items) }
{
    let from = at.min(old.len());
    let inside = bytes.len().min(old.len() - from);
    let (over, past) = bytes.split_at(inside);
    if old.extend_from_slice(past).is_err() {
        return Err(Memory);
    }
    let end = from + inside;
    old[from..end].copy_from_slice(over);
    Ok(())
}
