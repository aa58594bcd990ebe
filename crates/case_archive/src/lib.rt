//! Cases over an archive: it is opened over a disk in memory, captures are stored, brought back and found by date, calls of the
//! disk fail, the disk is stopped, and the archive is opened again.
#![tactic(auto)]

mod altered;
mod checkpoints;
mod depths;
mod looking;
mod play;

pub use play::{altered_outcome_of, outcome_of};
