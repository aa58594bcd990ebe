//! The archive: captures stored on a disk, brought back, found by date.
#![tactic(auto)]

mod archive;
mod comparing;
mod laws;
mod piece;
mod settling;
mod shelf;
mod stood_texts;
mod storing;

pub use archive::Archive;
pub use comparing::payload_of_taken;
pub use laws::compared_payloads_serve_later;
pub use stood_texts::StoodTexts;
pub use storing::{revisits_in, storing_has_a_basis};
