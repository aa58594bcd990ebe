//! Files to which texts are added behind a commit byte, so that a stop leaves each text whole or not at all.
#![tactic(auto)]

mod file;

pub use file::GatedFile;
