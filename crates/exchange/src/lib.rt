//! An exchange of HTTP/1.1 messages by a proxy: where a request is aimed, what its origin gets, how its response is
//! fetched, and what the client gets of it (RFC 9110, section 7.6).
#![tactic(auto)]

mod aim;
mod aiming;
mod answer;
mod connection_names;
mod fetching;
mod filter;
mod forward;
mod laws;
mod lines;
mod members;
mod output;
mod receiving;
mod refusal;
mod window;

pub use aim::{Aim, AimFault, HTTP_PORT, Target};
pub use aiming::{aim_of, host_of};
pub use answer::put_client_head;
pub use fetching::{FetchFault, fetch};
pub use filter::is_content_length;
pub use forward::forward_text;
pub use laws::requests_can_be_stored;
pub use output::{print_all, write_all};
pub use receiving::{Came, receive_request, receive_response};
pub use refusal::{RefusalText, memory_text, refusal_text};
pub use window::Window;
