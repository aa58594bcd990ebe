//! Reads the groups of a volume's captures, each two or three records (ISO 28500, WARC 1.1). What is read is exactly what `warc_text`
//! writes for well formed captures.
#![tactic(auto)]

mod answer;
mod copy;
mod cut;
mod find;
mod group;
mod group_step;
mod outline;
mod scan_group;
mod scan_opening;
mod scan_outline;
mod wire_digest;

pub use cut::told_len;
pub use group::{Group, HeadedGroup, Revisited};
pub use group_step::GroupStep;
pub use outline::Outline;
pub use scan_group::{next_group, next_headed_group};
pub use scan_opening::next_opening;
pub use scan_outline::next_outline;
