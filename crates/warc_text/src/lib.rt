//! The WARC text of an archive (ISO 28500, WARC 1.1), composed from what it holds.
//!
//! A volume's file begins with its `warcinfo` record. A group for each of its captures follows: the
//! record of the response, or of a revisit where an earlier capture has the same payload, and the
//! record of the request. A response whose origin ended inside its body is marked. Nothing is written
//! here that isn't one of these.
#![tactic(auto)]

mod group;
mod id;
mod info;
mod kind;
mod laws;
mod lengths;
mod lines;
mod put;
mod same_of;

pub use group::{group_text, put_group};
pub use id::{IdKind, id_of};
pub use info::{INFO_MOST, info_len, info_text, put_info};
pub use laws::{
    equal_groups_are_of_equal_captures, files_stand_for_one_book, groups_are_prefix_free,
    groups_of_books_tell_their_captures, groups_tell_their_captures, numbers_have_one_group,
    sound_volumes_have_one_text, texts_are_committed, texts_stay_when_a_book_grows,
};
pub use lengths::request_len;
pub use same_of::SameOf;
