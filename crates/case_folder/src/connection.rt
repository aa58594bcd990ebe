//! A whole connection over an archive.
use archive_core::Archive;
use capture::{Memory, Site, Text};
use disk_model::Disk;
use outside::{MemoryClock, MemoryDialer, MemoryLink};
use session::serve;
use std::alloc::Global;

/// The origins that connections dial, one after the other, and the clock that they ask.
#[derive(Drop)]
pub struct Origins {
    /// The origins.
    pub dialer: MemoryDialer,
    /// The clock.
    pub clock: MemoryClock,
}

/// What is written to a client that gives this text and then its end.
pub fn written<D: Disk>(
    alloc: Global,
    archive: &mut Archive<D>,
    origins: &mut Origins,
    text: &[u8],
) -> Result<Vec<u8>, Memory> {
    let site = site(alloc)?;
    served(
        alloc,
        archive,
        origins,
        Vec::from_slice(alloc, text)?,
        &site,
    )
}

fn served<D: Disk>(
    alloc: Global,
    archive: &mut Archive<D>,
    origins: &mut Origins,
    text: Vec<u8>,
    site: &Site,
) -> Result<Vec<u8>, Memory> {
    let mut client = MemoryLink::new(alloc, text, Vec::new(alloc));
    let Origins { dialer, clock } = origins;
    let _ended = serve(alloc, archive, &mut client, dialer, clock, site);
    Ok(Vec::from_slice(alloc, client.written())?)
}

/// The site of the archive, that of `pipe`.
fn site(alloc: Global) -> Result<Site, Memory> {
    Ok(Site {
        base: Text::from_str(alloc, "http://localhost:8080")?,
        host: Text::from_str(alloc, "localhost")?,
        port: 8080,
    })
}
