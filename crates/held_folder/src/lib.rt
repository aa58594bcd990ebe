//! A folder of numbered files that is held: what each call does in it, and what is known of its files.
#![tactic(auto)]

mod handles;
mod held;
mod mending;
mod reasons;
mod settling;
mod trust;

pub use held::{Held, Unheld};
pub use reasons::stopped;
