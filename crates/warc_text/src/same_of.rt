//! The capture that a revisit refers to.
use capture::Text;

/// What a revisit record says of the capture whose payload it has.
#[derive(Drop)]
pub struct SameOf {
    /// That capture's number.
    pub number: u32,
    /// Its target, in absolute form.
    pub uri: Text,
    /// When it was fetched, in milliseconds since 1970.
    pub date: u64,
}
