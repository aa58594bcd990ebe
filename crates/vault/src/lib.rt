//! An archive that several passes share: each call of a pass is one turn at a lock, and the turns form one history.
#![tactic(auto)]

mod at;
mod closing;
mod laws;
mod naming;
mod pass;
mod shelf;
mod vault;

pub use at::At;
pub use laws::{
    histories_are_shared_out, own_entries_stay, passes_stay_orderly, shown_histories_go_on,
};
pub use naming::{Naming, Unnamed};
pub use pass::VaultPass;
pub use vault::Vault;
