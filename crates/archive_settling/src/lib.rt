//! Settling: the checkpoints of sealed volumes are written where they are missing, of lines that are read back from the volumes.
#![tactic(auto)]

mod laws;
mod lined;
mod missing;
mod settling;

pub use laws::settling_keeps_checkpoints_right;
pub use lined::lined_volumes;
pub use settling::settle_volumes;
