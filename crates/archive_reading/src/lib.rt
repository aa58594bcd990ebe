//! What is read back of a capture: its group, its head and its payload, and its piece.
#![tactic(auto)]

mod decode;
mod kept_group;
mod part;
mod payload;
mod pieces;
mod reread;

pub use decode::{framing_behind, is_plain};
pub use kept_group::{KeptGroup, read_group, text_len};
pub use part::{ReadFault, read_part};
pub use payload::{ReadBack, payload_of, read_back, read_head, read_payload};
pub use pieces::piece;
pub use reread::{Reread, Revisit, read_own, reread_group, revisit_in};
