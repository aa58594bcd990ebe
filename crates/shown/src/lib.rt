//! Values of which only clauses know: they have no bytes, and a proof says what they are.
#![tactic(auto)]

mod shown;

pub use shown::{Choice, Shown};
