//! Steps over an archive on any disk: it is opened, captures are stored, brought back and found, and it is asked what it holds.
#![tactic(auto)]

mod asking;
mod filling;
mod following;
mod held;
mod pieces;
mod reopening;
mod settling;
mod steps;
mod storing;
mod terms;

pub use held::Held;
pub use reopening::reopened;
pub use steps::{do_step, put_closed};
pub use terms::{Opening, opening_in};
