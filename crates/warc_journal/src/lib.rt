//! The volumes of an archive on a disk, to which groups and volumes are added so that a stop leaves each whole or not
//! at all.
#![tactic(auto)]

mod extent;
mod fault;
mod journal;
mod laws;
mod opening;
mod place;

pub use extent::{Extent, Further};
pub use fault::DiskFault;
pub use journal::Journal;
pub use laws::{checkpoints_stay_beside_texts, just_texts_are_held, texts_stay_beside_other_work};
pub use opening::sync_volumes;
pub use place::Place;
