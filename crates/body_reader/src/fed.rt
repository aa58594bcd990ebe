//! What a reader of a body answers.

use capture::MessageFault;

/// How far a body has come.
#[derive(Clone, Copy)]
pub enum BodyProgress {
    /// More is to come.
    More,
    /// The body is whole with the last byte that was taken.
    Whole,
    /// The last byte that was taken shows this fault.
    Refused(MessageFault),
}

/// What a reader took of a piece.
#[derive(Clone, Copy)]
pub struct BodyFed {
    /// How many bytes, from the piece's front.
    pub used: usize,
    /// How far the body has come with them.
    pub progress: BodyProgress,
}
