//! Plays the cases of a file: what a case gives that plays anything but runs of the program, and how what is given differs from what is expected.
#![tactic(auto)]

mod objects;
mod play;
mod sent;
mod single;

pub use objects::dialer_of;
pub use play::{Program, Tally, play_file};
pub use sent::put_sent;
