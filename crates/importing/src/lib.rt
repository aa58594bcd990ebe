//! The command `import`: takes the captures of another tool's file in.
#![tactic(auto)]

mod importing;
mod input;
mod taking;
mod tally;

pub use importing::import;
