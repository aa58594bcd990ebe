//! What an archive holds, in numbers.

/// How much an archive holds.
#[derive(Clone, Copy)]
pub struct Counts {
    /// How many captures there are.
    pub captures: u32,
    /// How many of them refer to an earlier one for their payload.
    pub revisits: u32,
    /// How many volumes there are.
    pub volumes: u32,
}
