//! The connections of a gate, served side by side by the members of a crew.
#![tactic(auto)]

mod accepting;
mod crew;
mod fresh;
mod member;

pub use crew::{Shift, serve_crew};
