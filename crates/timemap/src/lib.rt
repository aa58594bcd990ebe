//! The list of a URL's captures (RFC 7089, section 5).
#![tactic(auto)]

mod dates;
mod law;
mod list;
mod mementos;

pub use law::entries_of_a_key_are_in_order;
pub use list::body;
