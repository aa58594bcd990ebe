//! The CDXJ lines of a volume's captures, read back from its records.
#![tactic(auto)]

mod kept;
mod line;
mod lines;
mod sort;

pub use lines::lines_of;
