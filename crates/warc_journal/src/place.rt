//! Where a text stands.

/// The place of a text in the volumes.
#[derive(Clone, Copy)]
pub struct Place {
    /// The number of the volume.
    pub volume: u32,
    /// Where the text begins in the volume's file, in bytes.
    pub at: u64,
    /// The text's length in bytes.
    pub len: u64,
}
