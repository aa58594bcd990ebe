//! Lists of events over an archive: what each answers, what it leaves on the disk, and what stands whatever comes.
#![tactic(auto)]

mod asking;
mod event;
mod events;
mod laws;
mod opening;
mod reply;
mod run;
mod stopping;

pub use event::Event;
pub use laws::{
    acknowledged_captures_stay, disks_hold_what_is_acknowledged, new_disks_start, one_more_at_most,
};
pub use reply::{EventFault, Reply};
pub use run::{Ran, RanEnd, run_events};
