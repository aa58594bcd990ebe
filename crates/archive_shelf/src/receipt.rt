//! What a store that succeeded answers.

/// That a capture was stored, and as which one.
#[derive(Clone, Copy)]
pub struct Receipt {
    /// The capture's number.
    pub number: u32,
    /// The number of the capture that has the same payload and keeps it, where there is one.
    pub same_as: Option<u32>,
}
