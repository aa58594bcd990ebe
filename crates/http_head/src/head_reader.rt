//! Collects a stream up to the end of its head.
ghost use Rattle.std.specs.Prelude.{◌≡◌, ◌≢◌, ◌+◌, ◌-◌, ◌<◌, ◌≤◌, ◌↔◌, ◌⊎◌, ℕ, [], ◌++◌, length, take, Some, IsTrue, IfOk, OnErr};
ghost use Rattle.capture.specs.Head.{head_end, after_line_ends, front_of};
ghost use Rattle.capture.specs.Head as head;
ghost use Rattle.http_head.specs.HeadReading.{IsOpen, Reaches, IsBlank, MayBeBlank};

use super::lines::{count_line_feeds, line_ends_len};
use super::seek::{Seek, seek_end};
use capture::{FIELD_LIMIT, HEAD_LIMIT, Memory};
use std::alloc::Global;
use std::marker::Model;

/// How far a stream has come.
#[derive(Clone, Copy)]
pub enum HeadProgress {
    /// The head hasn't ended.
    More,
    /// The head ends with the last byte that was taken, within its limits.
    Head,
    /// The head passes a limit: its length at the first byte too many, or its field lines, which are counted
    /// once it has ended.
    TooLong,
}

/// What a reader took of a piece.
#[derive(Clone, Copy)]
pub struct HeadFed {
    /// How many bytes, from the piece's front.
    pub used: usize,
    /// How far the stream has come with them.
    pub progress: HeadProgress,
}

/// Collects a stream from its first byte up to the end of its head (RFC 9112, section 2.1). Nothing is refused
/// for its grammar. A contract sees the stream so far, the line ends at its front with it.
#[derive(Drop)]
pub struct HeadReader {
    bytes: Vec<u8>,
    seek: Seek,
}

impl Model for HeadReader {
    ghost use Rattle.std.specs.Prelude.{◌≡◌, List, ℕ};
    ghost use Rattle.http_head.specs.declared.seek.Seek.TheVariants.{Before};
    ghost use Rattle.http_head.specs.steps.HeadSeek.{seek_after};

    ghost Value = { List ℕ };

    ghost view = { λ r. r.bytes.items };

    ghost invariant = { λ r. r.seek ≡ seek_after Before r.bytes.items };
}

impl HeadReader {
    /// A reader at the start of a stream. Takes no memory.
    pub fn new(alloc: Global) -> HeadReader
        ensures { result ≡ [] }
    {
        HeadReader {
            bytes: Vec::new(alloc),
            seek: Seek::Before,
        }
    }

    /// Goes back to the start of a stream. Keeps its memory.
    pub fn clear(&mut self)
        ensures { self.new ≡ [] }
    {
        self.bytes.clear();
        self.seek = Seek::Before;
    }

    /// Takes bytes from the front of the piece, up to the head's end or to the first byte past its greatest
    /// length. Where there is no memory it takes nothing.
    pub fn feed(&mut self, piece: &[u8]) -> Result<HeadFed, Memory>
        requires { IsOpen self.old }

        ensures fits { IfOk result (λ fed. fed.used ≤ length piece.now) }
        ensures some { IfOk result (λ fed. 0 < length piece.now → 0 < fed.used) }
        ensures takes { IfOk result (λ fed. self.new ≡ self.old ++ take fed.used piece.now) }
        ensures whole { IfOk result (λ fed. fed.progress ≡ HeadProgress.More → fed.used ≡ length piece.now) }

        ensures progress { IfOk result (λ fed. Reaches fed.progress self.new) }
        // Before the last byte that was taken nothing could be said.
        ensures soonest { IfOk result (λ fed. IsOpen (self.old ++ take (fed.used - 1) piece.now)) }
        ensures err { OnErr result (self.new ≡ self.old) }
    {
        let room = HEAD_LIMIT + 1 - self.bytes.len();
        let (within, _) = piece.split_at(piece.len().min(room));
        let found = seek_end(self.seek, within);
        let (taken, _) = piece.split_at(found.used);
        self.bytes.extend_from_slice(taken)?;
        self.seek = found.seek;
        Ok(HeadFed {
            used: found.used,
            progress: self.progress(),
        })
    }

    /// How far the stream has come, which no byte stands behind the head of.
    fn progress(&self) -> HeadProgress
        requires { (n : ℕ) → head_end self.now ≡ Some n → n ≡ length self.now }
        ensures { Reaches result self.now }
    {
        match self.seek {
            Seek::Ended => self.judge(),
            _ if self.bytes.len() > HEAD_LIMIT => HeadProgress::TooLong,
            _ => HeadProgress::More,
        }
    }

    /// Whether a stream that ends with its head is within the limits.
    fn judge(&self) -> HeadProgress
        requires { head_end self.now ≡ Some (length self.now) }
        ensures { Reaches result self.now }
    {
        let lines = count_line_feeds(self.text());
        if self.bytes.len() <= HEAD_LIMIT && lines <= FIELD_LIMIT + 2 {
            HeadProgress::Head
        } else {
            HeadProgress::TooLong
        }
    }

    /// How many bytes came.
    pub fn len(&self) -> usize
        ensures { result ≡ length self.now }
    {
        self.bytes.len()
    }

    /// Whether nothing but line ends came.
    pub fn is_blank(&self) -> bool
        ensures blank { IsTrue result ↔ IsBlank self.now }
        ensures front { IsOpen self.now → IsTrue result ↔ (front_of self.now ≡ head.Nothing) }
    {
        matches!(self.seek, Seek::Before)
    }

    /// Whether nothing but line ends came, and perhaps the CR of one more.
    pub fn may_be_blank(&self) -> bool
        ensures { IsTrue result ↔ MayBeBlank self.now }
    {
        matches!(self.seek, Seek::Before | Seek::BeforeCr)
    }

    /// The stream behind the line ends at its front.
    pub fn text(&self) -> &[u8]
        ensures { result.now ≡ after_line_ends self.now }
    {
        let (_, text) = self
            .bytes
            .as_slice()
            .split_at(line_ends_len(self.bytes.as_slice()));
        text
    }
}
