//! The command `follow`: an archive takes the captures of another one, piece by piece.
#![tactic(auto)]

mod following;
mod telling;

pub use following::follow;
