//! A list that one publisher makes longer, with the index of the entries that it brings, into which readers look without waiting.
//! Each look begins with all that its reader was told of before.
#![tactic(auto)]

mod items;
mod listing;
mod note;
mod publisher;
mod viewer;

pub use items::Brings;
pub use listing::Place;
pub use note::Note;
pub use publisher::{Publisher, published};
pub use viewer::{View, Viewer};
