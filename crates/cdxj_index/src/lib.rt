//! The index of an archive: its captures by look-up key, date and number.
#![tactic(auto)]

mod entry_map;
mod index;
mod ranks;
mod settle;
mod shared;
mod shared_entry;
mod steps;

pub use entry_map::{Range, Starting};
pub use index::Index;
pub use shared_entry::SharedEntry;
pub use steps::Steps;
