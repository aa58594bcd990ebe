//! What is stored: connections that are served one after the other.
ghost use Rattle.std.specs.Prelude.{◌≤◌};

use archive_shelf::Shelf;
use bench_stock::{CONNECTION, Connection, site};
use capture::Site;
use measuring::Stopped;
use std::alloc::Global;

/// How many connections there are.
pub const CONNECTIONS: u32 = 16;

/// Connections, and the archive's own site.
#[derive(Drop)]
pub struct Load {
    /// The last of them is served first.
    connections: Vec<Connection>,
    site: Site,
}

impl Load {
    /// So many connections, from this one on.
    pub fn new(alloc: Global, from: u32, count: u32) -> Result<Load, Stopped>
        requires from { from ≤ 16 }
        requires count { count ≤ 16 }
    {
        let site = site(alloc)?;
        let connections = connections_of(alloc, from, count)?;
        Ok(Load { connections, site })
    }

    /// Serves them over a shelf, in their order, and says whether each was served to its end.
    pub fn serve<S: Shelf>(&mut self, alloc: Global, shelf: &mut S) -> bool {
        let mut is_done = true;
        while let Some(connection) = self.connections.pop() {
            if !connection.serve(alloc, shelf, &self.site) {
                is_done = false;
            }
        }
        is_done
    }
}

/// So many connections, the last one first, down to this one.
fn connections_of(alloc: Global, from: u32, count: u32) -> Result<Vec<Connection>, Stopped>
    requires from { from ≤ 16 }
    requires count { count ≤ 16 }
{
    let mut connections = Vec::new(alloc);
    for behind in 0..count {
        let place = from + (count - 1 - behind);
        connections.push(Connection::new(alloc, place * CONNECTION)?)?;
    }
    Ok(connections)
}

/// All connections, shared out evenly among so many.
pub fn loads_of(alloc: Global, count: usize) -> Result<Vec<Load>, Stopped> {
    let Ok(count) = u32::try_from(count) else {
        return Err(Stopped::Archive);
    };
    let share = CONNECTIONS.checked_div(count).unwrap_or(0);
    let mut loads = Vec::new(alloc);
    for place in 0..count {
        let from = place.saturating_mul(share);
        if from > 16 || share > 16 {
            return Err(Stopped::Archive);
        }
        loads.push(Load::new(alloc, from, share)?)?;
    }
    Ok(loads)
}
