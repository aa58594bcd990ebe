//! The bounds of an archive.

/// How much an archive takes.
#[derive(Clone, Copy)]
pub struct Limits {
    /// The length in bytes past which a volume that holds a capture takes no further one.
    pub volume_bytes: u64,
    /// The greatest number of captures.
    pub captures: u32,
}

/// The greatest length in bytes of a head, or of a trailer section, skipped line ends among them.
pub const HEAD_LIMIT: usize = 65_536;

/// The greatest number of field lines of a head, or of a trailer section.
pub const FIELD_LIMIT: usize = 128;

/// The greatest length in bytes of a body as it stands on the wire.
pub const BODY_LIMIT: u64 = 67_108_864;

/// The greatest length in bytes of a chunk's size line, its LF among them.
pub const SIZE_LINE_LIMIT: usize = 1_024;

/// The greatest number of interim responses of one exchange.
pub const INTERIM_LIMIT: usize = 8;
