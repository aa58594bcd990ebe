//! Cases over an archive on a disk in a folder in memory: its steps and whole connections over it, which calls of the file system fail,
//! where the machine stops, and who else comes to the folder.
#![tactic(auto)]

mod connection;
mod found;
mod plans;
mod play;
mod quiet;

pub use connection::Origins;
pub use play::outcome_of;
