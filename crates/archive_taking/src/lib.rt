//! The piece of another archive's next capture, taken into an archive.
#![tactic(auto)]

mod laws;
mod next_piece;
mod rolling;

pub use laws::taken_pieces_lead_on;
pub use next_piece::take_piece;
pub use rolling::roll;
