//! Reads the volumes of an archive from a disk, from the first warcinfo to the end, as an archive is opened.
#![tactic(auto)]

mod asking;
mod fault;
mod found;
mod laws;
mod next;
mod placed;
mod position;
mod scanning;
mod window;

pub use fault::ScanFault;
pub use found::Found;
pub use laws::{
    books_end_with_what_was_read, books_go_on_with_what_is_found, books_go_on_with_what_is_skipped,
    damage_behind_a_skipped_volume_is_of_no_book, damaged_files_stand_for_no_book,
    files_begin_with_what_was_read, scans_stay_beside_other_work,
};
pub use placed::group_at;
pub use position::{Position, Stage};
pub use scanning::Scanning;
