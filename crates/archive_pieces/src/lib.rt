//! A piece: read as one capture's group, with what its revisit refers to, and made ready to be written.
#![tactic(auto)]

mod fault;
mod laws;
mod original;
mod parts;
mod ready;

pub use fault::PieceFault;
pub use laws::next_pieces_lead_on;
pub use original::original_of;
pub use parts::{Found, read_piece};
pub use ready::{end_of, make_piece_ready, passes_bounds};
