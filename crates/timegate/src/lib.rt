//! The answer that leads to the memento of a URL (RFC 7089, section 4).
#![tactic(auto)]

mod answer;
mod lines;

pub use answer::redirect;
