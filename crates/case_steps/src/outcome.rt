//! What a case gives, as lines.
ghost use Rattle.std.specs.Prelude.{◌<◌, IsTrue};
ghost use Rattle.disk_model.specs.Image.{file_count};

use capture::{Failed, Memory, put_all, put_number};
use digest32::{base32_of, payload_digest};
use disk_model::{Disk, Kind, MemoryDisk};
use std::alloc::Global;

/// The line of a step in which the disk failed.
const REFUSED: &[u8] = b"answer DiskFault";

/// What is put of a file.
#[derive(Clone, Copy)]
enum Part {
    /// Its length and its digest.
    Digest,
    /// Its bytes.
    Text,
}

/// The lines of an outcome, in the order in which they are put.
#[derive(Drop)]
pub struct Outcome {
    pub lines: Vec<Vec<u8>>,
}

impl Outcome {
    /// No line.
    pub fn new(alloc: Global) -> Outcome {
        Outcome {
            lines: Vec::new(alloc),
        }
    }

    /// `answer TEXT`
    pub fn put_answer(&mut self, alloc: Global, text: &[u8]) -> Result<(), Memory> {
        self.put(alloc, b"answer ", text)
    }

    /// `answer TEXT`, where there was memory for the text.
    pub fn put_told(&mut self, alloc: Global, told: Result<String, Memory>) -> Result<(), Memory> {
        let text = told?;
        self.put_answer(alloc, text.as_bytes())
    }

    /// `found TEXT`
    pub fn put_found(&mut self, alloc: Global, text: &str) -> Result<(), Memory> {
        self.put(alloc, b"found ", text.as_bytes())
    }

    /// `step done`, or `step refused`.
    pub fn put_step(&mut self, alloc: Global, refused: bool) -> Result<(), Memory> {
        let told: &[u8] = if refused { b"refused" } else { b"done" };
        self.put(alloc, b"step ", told)
    }

    /// `volume LENGTH DIGEST` or `checkpoint LENGTH DIGEST` for each file of the disk; `disk failed` where a call does.
    pub fn put_files(&mut self, alloc: Global, disk: &mut MemoryDisk) -> Result<(), Memory> {
        self.put_kind(alloc, disk, b"volume ", Kind::Warc, Part::Digest)?;
        self.put_kind(alloc, disk, b"checkpoint ", Kind::Cdxj, Part::Digest)
    }

    /// `warc TEXT` or `cdxj TEXT` for each file of the disk; `disk failed` where a call does.
    pub fn put_texts(&mut self, alloc: Global, disk: &mut MemoryDisk) -> Result<(), Memory> {
        self.put_kind(alloc, disk, b"warc ", Kind::Warc, Part::Text)?;
        self.put_kind(alloc, disk, b"cdxj ", Kind::Cdxj, Part::Text)
    }

    /// Whether the disk failed in the last step.
    pub fn is_refused(&self) -> bool {
        match self.lines.last() {
            Some(line) => line.as_slice() == REFUSED,
            None => false,
        }
    }

    /// A line for each file of a kind; `disk failed` where a call does.
    fn put_kind(
        &mut self,
        alloc: Global,
        disk: &mut MemoryDisk,
        name: &[u8],
        kind: Kind,
        part: Part,
    ) -> Result<(), Memory> {
        let Ok(count) = disk.files(kind) else {
            return self.put_failed(alloc);
        };
        for file in 0..count {
            match contents(alloc, disk, kind, file)? {
                Ok(text) => self.put_file(alloc, name, text.as_slice(), part)?,
                Err(Failed) => return self.put_failed(alloc),
            }
        }
        Ok(())
    }

    /// The line of a file that holds this text.
    fn put_file(
        &mut self,
        alloc: Global,
        name: &[u8],
        text: &[u8],
        part: Part,
    ) -> Result<(), Memory> {
        match part {
            Part::Digest => self.put_digest(alloc, name, text),
            Part::Text => self.put(alloc, name, text),
        }
    }

    /// The length of a text and its digest, behind the name.
    fn put_digest(&mut self, alloc: Global, name: &[u8], text: &[u8]) -> Result<(), Memory> {
        let mut line = Vec::from_slice(alloc, name)?;
        put_number(&mut line, text.len() as u64)?;
        put_all(&mut line, b" ")?;
        put_all(&mut line, &base32_of(&payload_digest(text)))?;
        self.push(line)
    }

    /// `disk failed`
    fn put_failed(&mut self, alloc: Global) -> Result<(), Memory> {
        self.put(alloc, b"disk ", b"failed")
    }

    /// A line that begins with a word and a space.
    pub fn put(&mut self, alloc: Global, word: &[u8], text: &[u8]) -> Result<(), Memory> {
        let mut line = Vec::from_slice(alloc, word)?;
        put_all(&mut line, text)?;
        self.push(line)
    }

    /// A line.
    pub fn push(&mut self, line: Vec<u8>) -> Result<(), Memory> {
        self.lines.push(line)?;
        Ok(())
    }
}

/// What a file holds.
fn contents<D: Disk>(
    alloc: Global,
    disk: &mut D,
    kind: Kind,
    file: u32,
) -> Result<Result<Vec<u8>, Failed>, Memory> {
    if !has_file(disk, kind, file) {
        return Ok(Err(Failed));
    }
    let Ok(len) = disk.len(kind, file) else {
        return Ok(Err(Failed));
    };
    let mut text = vec![in alloc; 0u8; len as usize]?;
    match disk.read(kind, file, 0, text.as_mut_slice()) {
        Ok(()) => Ok(Ok(text)),
        Err(Failed) => Ok(Err(Failed)),
    }
}

/// Whether the disk has the file.
fn has_file<D: Disk>(disk: &mut D, kind: Kind, file: u32) -> bool
    ensures { IsTrue D.tells → IsTrue result → file < file_count (D.reading disk.new) kind }
{
    match disk.files(kind) {
        Ok(count) => file < count,
        Err(Failed) => false,
    }
}
