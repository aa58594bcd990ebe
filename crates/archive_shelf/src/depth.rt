//! How much of an archive is read when it is opened.

/// How deep an opening reads.
#[derive(Clone, Copy)]
pub enum Depth {
    /// Each volume is read whole.
    Whole,
    /// A volume behind which others stand isn't read past its warcinfo where it has a finished checkpoint.
    Checkpoints,
}
