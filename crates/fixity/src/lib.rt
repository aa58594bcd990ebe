//! Fixity: whether a volume still holds its captures whole, in order, with their ids, and each payload with its digest.
#![tactic(auto)]

mod batch;
mod check;
mod crew;
mod due;
mod fault;
mod groups;
mod info;
mod laws;
mod next;
mod plan;
mod reading;
mod remainder;
mod run;
mod shares;
mod verdict;
mod workers;

pub use check::check_volume;
pub use fault::FixityFault;
pub use laws::volumes_have_one_verdict;
pub use verdict::Verdict;
