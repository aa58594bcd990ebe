//! The real objects that the program runs over: standard streams, TCP, the system's clock, and a folder.
#![tactic(auto)]

mod clock;
mod dialer;
mod ends;
mod faults;
mod file_system;
mod gate;
mod link;
mod made;
mod real_disk;
mod sink;
mod standard_descriptors;
mod standard_streams;
mod system_folder;

pub use clock::RealClock;
pub use dialer::RealDialer;
pub use ends::Ends;
pub use file_system::{FileSystem, SilentFolders};
pub use gate::RealGate;
pub use link::RealLink;
pub use made::{Made, make};
pub use real_disk::RealDisk;
pub use sink::RealSink;
pub use standard_descriptors::hold_standard_descriptors;
pub use standard_streams::StandardStreams;
pub use system_folder::{SystemFile, SystemFolder, SystemFolders};
