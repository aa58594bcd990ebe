//! The command `trial`: a load is stored in memory and brought back.
#![tactic(auto)]

mod trying;

pub use trying::trial;
