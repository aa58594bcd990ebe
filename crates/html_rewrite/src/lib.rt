//! A captured page, rewritten so that its links lead to the archive (the link attributes of the HTML Standard).
#![tactic(auto)]

mod attribute;
mod bytes;
mod law;
mod link;
mod names;
mod opening;
mod outline;
mod page;
mod raw_text;
mod reading;
mod reference;
mod rewriter;
mod room;
mod tag;
#[cfg(test)]
mod tests;
mod through;
mod written;

pub use law::{a_page_has_a_split, a_page_has_one_split, limits_are_these};
pub use link::web_target;
pub use page::{PAGE_LIMIT, rewrite};
