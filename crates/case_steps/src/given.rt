//! What a case says of a disk that isn't the plain one in memory.

/// Which byte of a volume's file reads as which.
#[derive(Clone, Copy)]
pub struct Change {
    /// The number of the volume's file.
    pub file: u32,
    /// The place in the file, in bytes.
    pub place: u64,
    /// What is read there.
    pub byte: u8,
    /// So many reads of it give what was written.
    pub kept_reads: u64,
}

/// Which calls of the file system are to fail, where the disk is in a folder, and how.
#[derive(Clone, Copy)]
pub struct FolderSetting<'a> {
    /// The numbers of the calls that are to fail, from 0.
    pub fails: &'a [u64],
    /// How many calls pass before each of them fails.
    pub fuse: Option<u64>,
    /// Whether a call that is to fail does a part of its work.
    pub in_part: bool,
}
