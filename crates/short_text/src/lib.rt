//! Texts of which most are short, kept so that a short one takes no memory of its own.
#![tactic(auto)]

mod short_text;

pub use short_text::ShortText;
