//! Captures for tests, what a shelf answers that stores, finds, brings and ships them, and a disk that waits for another thread.
#![tactic(auto)]

mod asking;
mod meeting;
mod samples;
mod waiting_disk;

pub use asking::{StoreAnswer, brings, found, ship_alike, stored};
pub use meeting::Meeting;
pub use samples::Sample;
pub use waiting_disk::WaitingDisk;
