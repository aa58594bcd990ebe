//! Sites of servers.
ghost use Rattle.std.specs.Prelude.{IsAscii};

use capture::{Memory, Site, Text};
use std::alloc::Global;

/// The site whose clients come in at a host and a port. Its base isn't asked.
pub(crate) fn site_at(alloc: Global, host: &str, port: u16) -> Result<Site, Memory>
    requires { IsAscii host.now }
{
    Ok(Site {
        base: Text::empty(alloc),
        host: Text::from_str(alloc, host)?,
        port,
    })
}
