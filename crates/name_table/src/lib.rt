//! Tables of names that are looked up with ASCII case ignored, and a macro for tables of an enum's
//! variants.
#![tactic(auto)]

mod header_fields;
mod match_rows;
mod table;

pub use header_fields::{hop_by_hop_fields, memento_fields};
pub use table::NameTable;
