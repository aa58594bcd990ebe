//! The volumes on a disk: what is known of their captures, and how these are written.
#![tactic(auto)]

mod entry;
mod group;
mod held;
mod method;
mod ready;
mod room;
mod spot;
mod stored_ghost;
mod volume_facts;
mod volumes;
mod write;

pub use entry::{Asked, RecordAt, entry_for, entry_of, told_entry};
pub use group::Layout;
pub use held::{Held, Shadow};
pub use method::is_head;
pub use ready::Ready;
pub use room::Prepared;
pub use spot::{Form, Spot, form_kept, reserve_kept};
pub use stored_ghost::StoredGhost;
pub use volume_facts::VolumeFacts;
pub use volumes::Volumes;
