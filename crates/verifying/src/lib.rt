//! The command `verify`: whether the bytes of an archive are still what it wrote.
#![tactic(auto)]

mod laws;
mod plan;
mod report;
mod verifying;

pub use laws::sound_volumes_verify;
pub use verifying::verify;
