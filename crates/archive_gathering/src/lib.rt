//! What is gathered of volumes as they are read: their book, what is kept of its captures, and their entries.
#![tactic(auto)]

mod gathered;
mod laws;
mod lines;
mod measuring;
mod noting;
mod originals;

pub use gathered::{Gathered, damaged};
pub use laws::reading_laws;
pub use lines::{are_next, by_number};
pub use noting::TEXT_BOUND;
