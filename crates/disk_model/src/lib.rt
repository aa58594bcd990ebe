//! A disk of numbered files, what a crash may leave of it, and a disk in memory that can be stopped.
#![tactic(auto)]

mod change;
mod contents;
mod disk;
mod file;
mod kind;
mod laws;
mod memory_disk;
mod stop;
mod synced;

pub use change::Change;
pub use disk::Disk;
pub use kind::Kind;
pub use laws::{
    cut_leaves_a_front_behind, other_files_stay, synced_kind_is_as_read, torn_append_stands_behind,
    torn_byte_is_alone, written_bytes_stand_in_place,
};
pub use memory_disk::MemoryDisk;
