//! How a file is opened.

/// How a file that is there is opened.
#[derive(Clone, Copy, PartialEq, Eq)]
pub enum Access {
    /// To be read alone.
    Read,
    /// To be read and written.
    Update,
}
