//! What is due in a volume's file.

/// A volume's file, and the captures whose groups are due in it.
#[derive(Clone, Copy)]
pub struct Due {
    /// The number of the volume, which is that of its file.
    pub volume: u32,
    /// The length of the file in bytes.
    pub len: u64,
    /// The number of its first capture.
    pub first: u32,
    /// How many captures it has.
    pub count: u32,
    /// Whether it is the last volume, which alone may end with an unfinished tail.
    pub last: bool,
}
