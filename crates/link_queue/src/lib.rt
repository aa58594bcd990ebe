//! A queue between one who puts links into it and those who take them out, with a ledger that tells which.
#![tactic(auto)]

mod accepting;
mod beside;
mod ledger;
mod plays;
mod post;
mod queue;
mod serving;
mod view;
mod waiting;

pub use accepting::Acceptor;
pub use beside::side_by_side;
pub use ledger::{Naming, Share};
pub use post::Worker;
pub use queue::{Queue, Unnamed};
pub use serving::{Served, Unserved, serve_beside};
pub use waiting::ROOM;
