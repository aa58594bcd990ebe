//! The numbered files of a folder: how they are named, counted, opened and read, and which of them stay open.
#![tactic(auto)]

mod counting;
mod left_files;
mod names;
mod open_files;
mod opening;
mod reasons;

pub use counting::{Counts, check_one, check_there, count, is_there, listed};
pub use left_files::{LeftFiles, is_as_left, is_at_name};
pub use names::FileNames;
pub use open_files::{OpenFiles, OpenOne};
pub use opening::{open_empty, open_one, read_open};
pub use reasons::{
    check_in_place, end_of, files_of_others, inside, moved, no_further_number, number_missing,
    unknown,
};
