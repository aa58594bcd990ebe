//! What the programs that measure an archive and a vault have in common: connections of a load and how they are served, disks in memory
//! with many captures, and how an archive is opened over one.
#![tactic(auto)]

mod connections;
mod journals;
mod load;
mod opening;
mod pages;

pub use connections::{CONNECTION, Connection, site};
pub use journals::{add, begin, journal_of_nothing};
pub use load::taken;
pub use opening::opened;
pub use pages::Stock;
