//! The addresses that connects reached of late.
ghost use Rattle.std.specs.Prelude.{◌<◌, length, IfSome, IsPermutation};

use std::net::{Ipv4Addr, SocketAddr};

/// How many addresses are remembered.
const MOST: usize = 16;

/// Addresses that were reached, the last of them last. Where there were fewer, others stand before them that no host
/// has.
#[derive(Clone, Copy)]
pub struct Worked {
    addresses: [SocketAddr; MOST],
}

impl Worked {
    /// No address so far.
    pub(crate) fn new() -> Worked {
        Worked {
            addresses: [SocketAddr::from((Ipv4Addr::UNSPECIFIED, 0)); MOST],
        }
    }

    /// Remembers an address that was reached, in place of the one that was reached longest ago.
    pub(crate) fn note(&mut self, address: SocketAddr) {
        let known = self.addresses.iter().position(|known| *known == address);
        let behind = &mut self.addresses[known.unwrap_or(0)..];
        behind.rotate_left(1);
        if let Some(last) = behind.last_mut() {
            *last = address;
        }
    }

    /// Puts the one of these addresses first that was reached last.
    pub(crate) fn bring_first(&self, found: &mut [SocketAddr])
        ensures { IsPermutation found.old found.new }
    {
        if let Some(at) = self.last_in(found) {
            found.swap(0, at);
        }
    }

    /// The place of the one of these addresses that was reached last.
    fn last_in(&self, found: &[SocketAddr]) -> Option<usize>
        ensures { IfSome result (λ at. at < length found.now) }
    {
        for known in self.addresses.iter().rev() {
            if let Some(at) = found.iter().position(|address| address == known) {
                return Some(at);
            }
        }
        None
    }
}
