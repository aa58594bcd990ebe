//! What is published of a vault, of which only clauses know.
use archive_volumes::Held;
use cdxj_index::Index;
use index_snapshot::{Brings, Place};
use shown::Shown;
use std::snapshot::Snapshot;

/// The entries that an item brings.
#[derive(Drop)]
pub enum Entries {
    /// All of an index.
    Many(Snapshot<Index>),
    /// That of a capture, if it is found by date.
    One(Snapshot<Place>),
}

/// A book that the archive had, with the entries that are new in it.
#[derive(Drop)]
pub struct Item {
    /// Whether the disk tells what it holds.
    pub told: Shown<bool>,
    pub held: Snapshot<Held>,
    pub entries: Entries,
}

/// What is published: books, each of which has grown from the one before it.
pub struct Books;

impl Brings<Item> for Books {
    ghost use Rattle.vault_lists.specs.Items.{AreItems, brings_of};

    ghost entries = { brings_of };

    ghost fits = { AreItems };
}
