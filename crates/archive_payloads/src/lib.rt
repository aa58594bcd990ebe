//! Payloads: which capture has one, and how a capture is brought with its own.
#![tactic(auto)]

mod bringing;
mod compare;
mod original;

pub use bringing::bring;
pub use compare::look_on_wire;
