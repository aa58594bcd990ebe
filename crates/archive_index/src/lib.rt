//! The index of an archive: how it is made of entries in any order, how a new capture enters it, and what is found in it.
#![tactic(auto)]

mod entry_order;
mod finding;
mod index;
mod tables;

pub use finding::{nearest, starting, with_key};
pub use index::enter_ready;
pub use tables::tables_of;
