//! A lock whose turns form one history. The value behind it keeps a list of entries, to which turns add at the end alone.
//! Each pass knows a beginning of that list, and what it did itself stands in it once, at the places that it saw.
#![tactic(auto)]

mod doors;
mod key;
mod lock;
mod pass;
mod plays;
mod steps;
mod told;
mod view;

pub use lock::HistoryLock;
pub use pass::Pass;
pub use told::{Told, Work};
