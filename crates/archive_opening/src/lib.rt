//! Opening: from the files of volumes on a disk to what was gathered of them.
#![tactic(auto)]

mod laws;
mod opening;
mod starting;
mod telling;

pub use laws::bytes_have_one_count;
pub use opening::{Opened, open_volumes};
pub use telling::open_by_checkpoints;
