//! What every command of the program stands on: its words, its status, what it prints, and how it opens the archive.
#![tactic(auto)]

mod base;
mod beginning;
mod hanging_up;
mod opening;
mod printing;
mod settling;
mod standing;
mod status;
mod texts;
mod words;

pub use beginning::{begin, beginning_keeps_what_is_known};
pub use hanging_up::hang_up;
pub use opening::{Known, Unknown, open};
pub use printing::{print_as, print_count};
pub use settling::{open_and_settle, settle_and_close};
pub use standing::stood_on;
pub use status::{Ran, Status};
pub use texts::{counts_text, damaged_capture, file_name, put_full, trial_text};
pub use words::{Command, asked_of, command_of, is_import, is_pipe, site_of};
