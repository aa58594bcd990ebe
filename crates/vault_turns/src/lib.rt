//! The turns of a vault's passes: what each finds, adds to the history and answers, and what lies behind the lock.
#![tactic(auto)]

mod bring;
mod commit;
mod compare;
mod first_turn;
mod flush;
mod gathering;
mod keeping;
mod noted;
mod noting;
mod piece;
mod published;
mod turning;

pub use bring::{Bring, hold_back};
pub use commit::Commit;
pub use first_turn::{FirstAnswer, FirstTurn};
pub use flush::Flush;
pub use noted::{Kind, Noted, Sure};
pub use piece::Piece;
pub use published::Published;
pub use turning::{Act, Telling};
