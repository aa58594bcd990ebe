//! What is replayed.
use capture::{Brought, Site};

/// A capture that is replayed on a site.
#[derive(Clone, Copy)]
pub struct Replay<'a> {
    /// Where the archive is reached.
    pub site: &'a Site,
    /// The capture.
    pub capture: &'a Brought,
    /// Whether it is given as it was received.
    pub raw: bool,
}
