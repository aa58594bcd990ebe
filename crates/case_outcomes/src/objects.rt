//! The objects in memory that a single play is given.
use case_objects::links_of;
use case_setting::Setting;
use outside::{MemoryDialer, MemoryLink};
use std::alloc::{AllocError, Global};

/// The link of the last client. `None` where the case has no client.
pub fn client_of(alloc: Global, setting: &Setting) -> Result<Option<MemoryLink>, AllocError> {
    let mut links = links_of(
        alloc,
        setting.clients.as_slice(),
        setting.client_front,
        setting.pieces,
        setting.fails.client.as_slice(),
    )?;
    Ok(links.pop())
}

/// The dialer that gives the case's origins.
pub fn dialer_of(alloc: Global, setting: &Setting) -> Result<MemoryDialer, AllocError> {
    let fails = &setting.fails;
    let links = links_of(
        alloc,
        setting.origins.as_slice(),
        setting.origin_front,
        setting.pieces,
        fails.origin.as_slice(),
    )?;
    Ok(MemoryDialer::new(alloc, links, fails.dial.clone()?))
}
