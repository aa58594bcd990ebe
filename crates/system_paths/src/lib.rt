//! What the system says of paths, of locks and of a folder's names.
#![tactic(auto)]

mod entries;
mod locks;
mod paths;

pub use entries::pass_over_odd_name;
pub use locks::{locked, needed_lock};
pub use paths::{c_path_of, check_regular, is_at, is_link_at, may_write};
