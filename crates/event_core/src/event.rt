//! What happens to an archive.
use capture::Taken;
use surt_key::Key;

/// What is asked of an archive, or what happens to its disk.
#[derive(Drop)]
pub enum Event {
    /// A capture is stored.
    Store(Taken),
    /// A volume is begun, born at this time in milliseconds since 1970, where the last one holds a capture.
    Roll(u64),
    /// The capture with this number is brought.
    Bring(u32),
    /// The entry of a key that is nearest to a time in milliseconds since 1970 is looked up.
    ByDate(Key, u64),
    /// The entries of a key are looked up.
    Map(Key),
    /// The checkpoints are written that sealed volumes haven't yet.
    Settle,
    /// The disk is stopped with this choice (`MemoryDisk::stop`), and the archive opened again.
    Stop(u32),
    /// A capture begins to be stored, with a fuse of so many calls of the disk; then it is stopped with this choice, and opened again.
    StopWithin {
        /// What begins to be stored.
        taken: Taken,
        /// How many calls of the disk pass.
        calls: u64,
        /// What the stop chooses of what the disk may hold, as `MemoryDisk::stop` takes it.
        choice: u32,
    },
}
