//! The key under which the captures of a URL are looked up: a narrowed form of SURT (Sort-friendly URI Reordering
//! Transform), which begins with the host's labels in reverse and so stands beside the keys of the same domain.
#![tactic(auto)]

mod address;
mod fault;
mod host_labels;
mod key;
mod laws;
mod pieces;
mod url_key;

pub use address::{KeyedUrl, key_of_address};
pub use fault::KeyFault;
pub use key::Key;
pub use laws::{accepted_targets_have_keys, keys_hold_no_space};
pub use url_key::{key_of, key_of_url};
