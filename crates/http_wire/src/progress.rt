//! What a reader answers.

/// How far a stream has come.
#[derive(Clone, Copy)]
pub enum Progress {
    /// More of a message is to come.
    More,
    /// The head ends with the last byte that was taken. This is answered once.
    Head,
    /// The message is whole with the last byte that was taken.
    Whole,
}

/// What a reader took of a piece.
#[derive(Clone, Copy)]
pub struct Fed {
    /// How many bytes, from the piece's front.
    pub used: usize,
    /// How far the stream has come with them.
    pub progress: Progress,
}
