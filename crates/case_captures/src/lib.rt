//! Captures, as cases and tests give them: by a date, a method, a target, and what the origin sends. And what a shelf tells of them.
#![tactic(auto)]

mod finding;
mod replies;
mod taking;
mod told;

pub use finding::{
    bring_fault_bytes, brought, brought_text, entry_text, found_by_date, mapped, number_text,
    numbers_of, starting_with,
};
pub use replies::{counts_text, damage_text, receipt_text, reopen_fault_text, store_fault_text};
pub use taking::{Exchanged, Prepared, exchanged_in, prepared_of};
pub use told::{told_bytes, told_text};
