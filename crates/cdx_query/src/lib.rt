//! Queries over the index of an archive, as a CDX server answers them: which entries they ask for, and the text of the answer.
#![tactic(auto)]

mod fault;
mod filter;
mod laws;
mod length;
mod parts;
mod put;
mod query;
mod read;
mod values;

pub use fault::QueryFault;
pub use laws::{queries_have_one_answer, texts_are_one_query};
pub use put::answer;
pub use query::{MatchKind, Query};
pub use read::read_query;
