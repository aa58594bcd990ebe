//! What a case is given, line by line: what it plays, and over which objects.
#![tactic(auto)]

mod script;
mod setting;

pub use script::Script;
pub use setting::{Fails, Played, Setting, Stops};
