//! Connections by TCP with limits of time, over any network.
#![tactic(auto)]

mod accept_faults;
mod brackets;
mod limits;
mod lingering;
mod listening;
mod own_address;
mod places;
mod tcp;
mod worked;

pub use accept_faults::is_memory;
pub use limits::{LIMITS, Limits};
pub use listening::{Address, LISTEN, where_to_listen};
pub use own_address::leads_back;
pub use places::{Place, Places};
pub use tcp::dial::TcpDialer;
pub use tcp::gate::TcpGate;
pub use tcp::link::TcpLink;
