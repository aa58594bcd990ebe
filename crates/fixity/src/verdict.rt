//! What a check of a volume's bytes finds.

/// What the bytes of a volume are. Places and lengths are in bytes, from the volume's first byte on.
#[derive(Clone, Copy)]
pub enum Verdict {
    /// The volume's warcinfo, the groups of all its captures, and nothing behind them, or in the last volume an unfinished tail.
    Sound {
        /// How long they are, without the tail.
        bytes: u64,
    },
    /// Something else.
    Damaged {
        /// Where the first warcinfo, group or remainder begins that isn't as it is due.
        place: u64,
    },
}
