//! A disk of numbered files in a folder.
#![tactic(auto)]

mod archive_names;
mod beginning;
mod causes;
mod folder_disk;
mod gaps;
mod laws;
mod reader;
mod reading;
mod reasons;
mod standing;
mod unopened;

pub use archive_names::{ArchiveFile, ArchiveNames, FOLDER};
pub use causes::{Causes, counted, told};
pub use folder_disk::FolderDisk;
pub use laws::what_was_left_is_found;
pub use reader::FolderReader;
pub use unopened::Unopened;
