//! Connections of a load, and how one is served.
ghost use Rattle.std.specs.Prelude.{◌≤◌};

use crate::load;
use archive_shelf::Shelf;
use capture::{Memory, Site, Text};
use measuring::{Measured, Stopped};
use outside::{MemoryClock, MemoryDialer, MemoryLink};
use session::{Served, serve};
use std::alloc::Global;
use std::rt::Clock;

/// How many captures a connection stores.
pub const CONNECTION: u32 = 1_000;

/// What a client sends over a connection, and what is answered to it outside.
#[derive(Drop)]
pub struct Connection {
    client: Vec<u8>,
    dialer: MemoryDialer,
    clock: MemoryClock,
}

impl Connection {
    /// The connection with the exchanges of a load from this number on.
    pub fn new(alloc: Global, from: u32) -> Result<Connection, Stopped>
        requires { from ≤ 2000000 }
    {
        let to = from + CONNECTION;
        let client = load::client(alloc, from, to)?;
        let origins = load::origins(alloc, from, to)?;
        let times = load::times(alloc, from, to)?;
        Ok(Connection {
            client,
            dialer: MemoryDialer::new(alloc, origins, Vec::new(alloc)),
            clock: MemoryClock::new(times),
        })
    }

    /// Serves it, and says whether that was done to its end.
    pub fn serve<S: Shelf>(self, alloc: Global, shelf: &mut S, site: &Site) -> bool {
        let Connection {
            client,
            mut dialer,
            mut clock,
        } = self;
        let mut client = MemoryLink::new(alloc, client, Vec::new(alloc));
        match serve(alloc, shelf, &mut client, &mut dialer, &mut clock, site) {
            Served::Done => true,
            _ => false,
        }
    }

    /// Serves it, and gives the nanoseconds that this took.
    pub fn serve_timed<R: Clock, S: Shelf>(
        self,
        rt: &R,
        alloc: Global,
        shelf: &mut S,
        site: &Site,
    ) -> Result<u64, Stopped> {
        let start = Measured::start(rt)?;
        if self.serve(alloc, shelf, site) {
            start.nanos(rt)
        } else {
            Err(Stopped::Archive)
        }
    }
}

/// The archive's own site.
pub fn site(alloc: Global) -> Result<Site, Memory> {
    Ok(Site {
        base: Text::from_str(alloc, "http://localhost:8080")?,
        host: Text::from_str(alloc, "localhost")?,
        port: 8080,
    })
}
