//! The objects in memory, which fail at the calls whose numbers are listed.
mod clock;
mod dialer;
mod gate;
mod link;
mod sink;

pub use clock::MemoryClock;
pub use dialer::MemoryDialer;
pub use gate::MemoryGate;
pub use link::MemoryLink;
pub use sink::MemorySink;
