//! Mementos: captured responses as the archive gives them (RFC 7089).
#![tactic(auto)]

mod answer;
mod body;
mod fields;
mod lines;
mod replay;

pub use answer::memento;
