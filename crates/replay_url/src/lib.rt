//! The addresses of the archive's site, under which captures are replayed.
#![tactic(auto)]

mod address;
mod fault;
mod form;
mod law;
mod link;
mod number;
mod put;
mod read;

pub use fault::FormFault;
pub use form::{Form, KeyedForm};
pub use law::{addresses_are_read_back, addresses_have_one_form};
pub use link::{put_gate_link, put_link_parameter, put_map_link, put_original_link};
pub use number::read_number;
pub use put::{put_form, put_gate, put_map, put_memento};
pub use read::{read_form, read_keyed_form};
