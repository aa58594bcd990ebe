//! Checkpoints: the CDXJ lines of a volume's captures in a file beside it, which is finished or counts for nothing.
#![tactic(auto)]

mod bytes;
mod clearing;
mod fault;
mod file;
mod laws;
mod lines;
mod order;
mod parse;
mod reading;
mod typed;
mod writing;

pub use clearing::clear_unsealed;
pub use fault::CheckpointFault;
pub use laws::{
    checkpoints_have_one_list_of_lines, volumes_have_one_list_of_lines,
    writing_leaves_what_is_given,
};
pub use reading::read_for;
pub use writing::write_for;
