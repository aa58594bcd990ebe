//! What is published of a vault: the list of its books, and what is found by date in it.
#![tactic(auto)]

mod finding;
mod item;
mod listed;

pub use finding::{find_key, find_nearest, find_starting};
pub use item::{Books, Entries, Item};
pub use listed::{Listed, longer};
