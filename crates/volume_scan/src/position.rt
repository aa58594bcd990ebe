//! How far the volumes were read.
use uuid::Uuid;
use warc_journal::Extent;

/// What was answered last.
#[derive(Clone, Copy)]
pub enum Stage {
    /// Nothing, or a group of the last volume.
    Within,
    /// The warcinfo of the last volume.
    Opened,
    /// The warcinfo of the last volume, the rest of which is skipped.
    Skipped,
    /// The end.
    Done,
}

/// How far the volumes were read.
#[derive(Clone, Copy)]
pub struct Position {
    /// The volumes whose warcinfo was read, and where what was read ends in the last one's file. What stands behind that is
    /// told once the end was answered.
    pub extent: Extent,
    /// How many captures were read or skipped.
    pub captures: u32,
    /// The namespace of the last warcinfo: sixteen bytes that are 0 without one.
    pub namespace: Uuid,
    /// What was answered last.
    pub stage: Stage,
}
