//! What the programs that measure have in common: the time of a loop, the memory that is held, and what is measured.
#![tactic(auto)]

mod captures;
mod entries;
mod measured;
mod memory;
mod plain;
mod stopped;

pub use captures::{page_of, taken_of};
pub use entries::{NOON, entry_of, shuffled, text_of, url_of};
pub use measured::{Measured, print_beside, print_share};
pub use memory::resident;
pub use plain::time_of;
pub use stopped::Stopped;
