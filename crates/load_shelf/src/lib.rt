//! A shelf that notes whether the captures of a load are stored on it.
#![tactic(auto)]

mod shelf;

pub use shelf::LoadShelf;
