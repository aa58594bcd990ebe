//! An archive is opened on a disk, and known by its type to keep what stood finished in its volumes then.
#![tactic(auto)]

mod knowing;
mod making;
mod watched;
mod whole;

pub use knowing::{reopen, reopen_known, reopen_told};
pub use watched::{Since, Watched};
