//! Follows a source: an archive that takes the captures of another one, piece by piece.
#![tactic(auto)]

mod asking;
mod following;
mod laws;

pub use asking::{SourceFault, source_of};
pub use following::{Stop, follow_source};
pub use laws::replicas_are_fronts;
