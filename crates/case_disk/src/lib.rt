//! Cases over a disk in memory: its calls, the volumes that stand on it, steps of their journal, what an opening finds, and what
//! the files hold.
#![tactic(auto)]

mod call;
mod calls;
mod checkpoints;
mod group;
mod looked;
mod opening;
mod told;
mod verdicts;

pub use calls::outcome_of_calls;
pub use opening::{files_behind, outcome_of};
