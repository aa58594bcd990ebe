//! What is asked of an archive by date.
ghost use Rattle.std.specs.Prelude.{◌≤◌, ℕ, Bool, nat_eq, bytes_eq, IfOk, OnOk};
ghost use Rattle.std.specs.List.{starts_with};
ghost use Rattle.capture.specs.declared.book.Book.{Book};
ghost use Rattle.archive_shelf.specs.Queries.{ArePicked, IsFound};
ghost use Rattle.archive_shelf.specs.Told.{KnowsBook, LooksOn, Told};

use capture::Memory;
use index_entry::Entry;
use std::alloc::Global;
use surt_key::Key;

/// Shows the captures of an archive by date: those of the book that it saw last, and in company perhaps more.
pub trait Finder {
    /// Whether nobody else stores in its archive.
    ghost alone: { Bool };

    /// What is told of it: the book, the entries that are shown, the numbers of its own captures and its limits; its count of faults;
    /// what a read of its files gives; and what a crash may leave.
    ghost told: { Self → Told };

    /// The entry of this key that is nearest to a time in milliseconds since 1970, the first in order of those that are as
    /// near (RFC 7089, section 4.1.1). None exactly where the key has none.
    fn by_date(&mut self, alloc: Global, key: &Key, time: u64) -> Result<Option<Entry>, Memory>
        ensures found { IfOk result (λ entry. IsFound (told self.new).contents.shown key.now time entry) }
        ensures knows { OnOk result (KnowsBook alone (told self.new).contents) }
        ensures looks { LooksOn alone (told self.old) (told self.new) };

    /// The entries of this key, in order of date and number.
    fn map(&mut self, alloc: Global, key: &Key) -> Result<Vec<Entry>, Memory>
        ensures found { IfOk result (λ entries. ArePicked (λ e. bytes_eq key.now e.key) (told self.new).contents.shown entries.items) }
        ensures knows { OnOk result (KnowsBook alone (told self.new).contents) }
        ensures looks { LooksOn alone (told self.old) (told self.new) };

    /// The entries whose key begins with these bytes, in order of key, date and number.
    fn starting(&mut self, alloc: Global, start: &Key) -> Result<Vec<Entry>, Memory>
        ensures found { IfOk result (λ entries. ArePicked (λ e. starts_with nat_eq e.key start.now) (told self.new).contents.shown entries.items) }
        ensures knows { OnOk result (KnowsBook alone (told self.new).contents) }
        ensures looks { LooksOn alone (told self.old) (told self.new) };

    /// A book that may be opened since a moment may be since an earlier one.
    ghost earlier: { (finder : Self) (t s : ℕ) (book : Book) → t ≤ s → (told finder).crash.openings s book
        → (told finder).crash.openings t book };

    /// Since a later moment there are no other images.
    ghost covered_later: { (finder : Self) (t s : ℕ) → t ≤ s → (told finder).crash.covered t → (told finder).crash.covered s };
}
