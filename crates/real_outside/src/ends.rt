//! Where a run meets its clients and its origins.
ghost use Rattle.std.specs.Prelude.{◌≡◌};
ghost use Rattle.real_outside.specs.Ends as spec;

use capture::Site;

/// Where a run meets its clients and its origins.
#[derive(Drop)]
pub enum Ends {
    /// One client at the standard streams, and the trial origin in this process.
    Streams,
    /// Clients at the host and port of this site, and origins, by TCP. Without a site no client comes in.
    Network(Option<Site>),
}

impl Ends {
    /// Whether the one client is at the standard streams.
    pub fn is_streams(&self) -> bool
        ensures { result ≡ spec.is_streams self.now }
    {
        match self {
            Ends::Streams => true,
            Ends::Network(_) => false,
        }
    }
}
