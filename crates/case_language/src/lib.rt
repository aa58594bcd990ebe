//! The language of case files: their lines, the texts and numbers that these write, and how what a case gave is compared with
//! what it expects.
#![tactic(auto)]

mod case_file;
mod compare;
mod escapes;
mod line;
mod names;
mod numbers;
mod text_words;
mod words;

pub use case_file::{Case, CaseFile};
pub use compare::difference;
pub use escapes::decode;
pub use line::Line;
pub use names::{NamedText, Names};
pub use numbers::{number_of, numbers_of, plays_of};
pub use text_words::TextWords;
pub use words::{in_pieces, number_in, split_front, split_part, split_word};
