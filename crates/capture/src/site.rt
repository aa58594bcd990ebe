//! Where the archive itself is reached.
use crate::Text;

/// The address under which captures are replayed.
#[derive(Drop)]
pub struct Site {
    /// The prefix of its URLs, without a final slash.
    pub base: Text,
    /// The host of the base, an IPv6 address in brackets.
    pub host: Text,
    /// The port of the base.
    pub port: u16,
}
