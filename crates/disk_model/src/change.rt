//! What a disk in memory keeps of its calls.
use crate::Kind;
use capture::Bytes;

/// A change of a disk in memory, or a sync, as data.
#[derive(Drop)]
pub enum Change {
    /// Bytes were written into a file at an offset.
    Wrote {
        kind: Kind,
        file: u32,
        at: u64,
        bytes: Bytes,
    },
    /// A file was cut to a length.
    Shortened {
        kind: Kind,
        file: u32,
        len: u64,
    },
    /// An empty file was made.
    Made {
        kind: Kind,
    },
    /// A call that failed made an empty file of this number, which a stop leaves there or not.
    HalfMade {
        kind: Kind,
        file: u32,
    },
    /// A file was synced.
    Synced {
        kind: Kind,
        file: u32,
    },
}
