//! The captures whose payload has a digest, so that a payload that is there already is stored once.
#![tactic(auto)]

mod digests;
mod groups;
mod lazy;
mod lists;
mod numbers;

pub use digests::Digests;
pub use lazy::LazyDigests;
