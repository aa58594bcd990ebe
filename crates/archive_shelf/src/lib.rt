//! The archive: what it is to store a capture, to bring it back, to find it by date and to open an archive again.
#![tactic(auto)]

mod counts;
mod depth;
mod fault;
mod finder;
mod laws;
mod looked;
mod looking;
mod receipt;
mod shelf;

pub use counts::Counts;
pub use depth::Depth;
pub use fault::{BringFault, ReopenFault, RollFault, StoreFault};
pub use finder::Finder;
pub use laws::{
    captures_are_stored_one_way, entries_gain_what_is_stored, first_keeps_its_wire,
    growth_leaves_soundness, leading_books_grow, looked_stays_right, stored_captures_stand_behind,
    storing_keeps_soundness, texts_go_on_behind,
};
pub use looked::Looked;
pub use looking::{find_all, find_nearest, find_starting};
pub use receipt::Receipt;
pub use shelf::Shelf;
