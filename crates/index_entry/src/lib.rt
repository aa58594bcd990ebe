//! What the index of an archive knows of a capture, and which entries and which index a book has.
#![tactic(auto)]

mod entry;
mod laws;

pub use entry::{Entry, Moment, number_of};
pub use laws::books_have_one_index;
