//! The entries of a vault's history, of which only clauses know.
use archive_core::StoodTexts;
use archive_volumes::Held;
use capture::{Limits, Taken};
use index_snapshot::Note;
use shown::Shown;
use std::snapshot::Snapshot;
use vault_lists::Item;

/// What a proof is sure of that a crash leaves of an archive. Only clauses know of one: it is shown, and never made.
#[derive(Drop)]
pub struct Sure {
    /// The archive's book alone, where its ids differ.
    pub calm: bool,
    /// Where the book is told, no finished checkpoints but those of its sealed volumes.
    pub right: bool,
    /// Whatever is told of the book, the texts that stood finished in its volumes at a moment, at each moment since.
    pub lasts: bool,
    /// Which texts these are, and since when.
    pub stood: StoodTexts,
}

/// What an entry of the history tells.
#[derive(Drop)]
pub enum Kind {
    /// The archive was given to the vault, with this book and these limits; whether its disk tells what it holds; the list that is
    /// published; how many faults the disk had counted; and what was sure of a crash. It is the first entry.
    Opened(Snapshot<Held>, Limits, Shown<bool>, Snapshot<Note<Item>>, u64, Shown<Sure>),
    /// A volume was begun, at this time in milliseconds since 1970.
    Began(u64),
    /// A capture was stored, which refers to the one with this number, if to any.
    Stored(Snapshot<Taken>, Option<u32>),
    /// The disk failed.
    Failed,
}

/// An entry of the history, with the number of the pass that added it, or 0 where it was there before the passes.
#[derive(Drop)]
pub struct Noted {
    pub by: u32,
    pub kind: Kind,
}
