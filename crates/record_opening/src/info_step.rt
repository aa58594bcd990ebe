//! What stands where a volume begins.
use uuid::Uuid;

/// What a volume's file begins with.
#[derive(Drop)]
pub enum InfoStep {
    /// A warcinfo.
    Info {
        /// The archive's namespace.
        namespace: Uuid,
        /// When the volume was begun, in milliseconds since 1970.
        born: u64,
        /// The record's length in bytes.
        len: u64,
    },
    /// Nothing: the file is empty.
    End,
    /// An unfinished tail, as a stop leaves it.
    Unfinished,
    /// The commit byte and more, but no warcinfo of this volume.
    Damaged,
    /// The bytes don't decide. A warcinfo that stands there has at least so many bytes, more than there are.
    Need(u64),
    /// There was no memory.
    Memory,
}
