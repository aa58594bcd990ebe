//! What the definitions promise to those who build on them.
ghost use Rattle.index_entry.specs.OfBook.{BooksHaveOneIndex, BooksHaveOneListOfEntries};

use warc_text::numbers_have_one_group;

/// A book has one list of entries, and one index.
pub fn books_have_one_index()
    ensures index { BooksHaveOneIndex }
    ensures entries { BooksHaveOneListOfEntries }
{
    // What `warc_text` promises, which the proof cites.
    numbers_have_one_group();
}
