//! What steps a case has, over which disk they are done, and the lines that they give.
#![tactic(auto)]

mod deed;
mod disk;
mod ends;
mod given;
mod outcome;
mod player;
mod reaching;
mod work;

pub use deed::Deed;
pub use disk::{DiskSetting, disk_of};
pub use ends::{after, kept, none_of};
pub use given::{Change, FolderSetting};
pub use outcome::Outcome;
pub use player::{Player, outcome_of_steps};
pub use reaching::{Absent, look, reach};
pub use work::{Step, Work};
