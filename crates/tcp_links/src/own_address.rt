//! Whether an address leads back to the listener of this program.
use std::net::{IpAddr, Ipv4Addr, Ipv6Addr, SocketAddr};
use system_network::Network;

/// Whether a connection to an address would come to the listener at its own address. One that listens at the
/// unspecified address listens at all that this machine has: those of IPv4, or all.
pub fn leads_back<N: Network>(network: &mut N, address: SocketAddr, own: SocketAddr) -> bool {
    if address.port() != own.port() {
        return false;
    }
    let to = reached(address.ip());
    let at = own.ip().to_canonical();
    if !at.is_unspecified() {
        return to == at;
    }
    (at.is_ipv6() || to.is_ipv4()) && network.is_here(to)
}

/// The address that a connection to this one reaches: an IPv4 address for one that is mapped, and this machine for
/// the unspecified one.
fn reached(ip: IpAddr) -> IpAddr {
    match ip.to_canonical() {
        IpAddr::V4(address) if address.is_unspecified() => IpAddr::V4(Ipv4Addr::LOCALHOST),
        IpAddr::V6(address) if address.is_unspecified() => IpAddr::V6(Ipv6Addr::LOCALHOST),
        other => other,
    }
}
