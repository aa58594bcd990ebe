//! A folder of files by the calls of a file system: what they do, and what a crash may leave.
#![tactic(auto)]

mod access;
mod durable;
mod folder;
mod folders;
mod laws;
mod names;
mod timed;
mod whole;

pub use access::Access;
pub use durable::{MakeFault, make_durably, settle_durably};
pub use folder::Folder;
pub use folders::{Folders, Lock};
pub use laws::{
    each_call_is_the_disks, each_deed_is_a_step_of_the_disk, moments_have_their_images,
    what_a_failed_sync_leaves_is_mended, what_is_left_is_a_disk, what_was_synced_is_durable,
};
pub use names::{NameList, Names};
pub use timed::Timed;
pub use whole::{WriteFault, read_whole, write_whole};
