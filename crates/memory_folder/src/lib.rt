//! A folder of files in memory, which tells what was done in it, fails where it is told to, and can be stopped.
#![tactic(auto)]

mod budget;
mod entries;
mod entry;
mod memory_folder;
mod memory_folders;
mod plan;
mod standing;
mod step;
mod store;
mod telling;
mod told;

pub use memory_folder::{MemoryFile, MemoryFolder};
pub use memory_folders::{MemoryFolders, Visit};
pub use plan::Plan;
