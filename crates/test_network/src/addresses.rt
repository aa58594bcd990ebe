//! Which addresses of a host are kept.
//! No case can say it: a case looks no host up.
use crate::checked::check;
use call_log::{Written, joined, written};
use std::net::{Ipv4Addr, Ipv6Addr, SocketAddr};
use std::process::Abort;
use system_network::put_first;

/// The most addresses of a host of a row.
const MOST: usize = 10;

/// How many places there are for them.
const PLACES: usize = 8;

/// The loopback's address at a port, of IPv6 up to one of them.
fn address(port: u16, last_of_six: u16) -> SocketAddr {
    if port <= last_of_six {
        SocketAddr::from((Ipv6Addr::LOCALHOST, port))
    } else {
        SocketAddr::from((Ipv4Addr::LOCALHOST, port))
    }
}

/// Addresses at the ports from 1 on, of which so many are of IPv6.
fn addresses(six: u16) -> [SocketAddr; MOST] {
    let mut all = [address(0, 0); MOST];
    for (place, port) in all.iter_mut().zip(1..=10) {
        *place = address(port, six);
    }
    all
}

/// How many of so many addresses are put, and what stands in the places then.
fn put(six: u16, many: usize) -> Written {
    let all = addresses(six);
    let came = all.get(..many).unwrap_or(&[]);
    let mut found = [address(0, 0); PLACES];
    let mut told = written(put_first(came.iter().copied(), &mut found));
    for place in &found {
        told = joined(joined(told, " "), written(*place).as_str());
    }
    told
}

/// How many addresses of IPv6 come, how many in all, and what is put.
static HOSTS: [(u16, usize, &str); 6] = [
    (
        0,
        9,
        "8 127.0.0.1:1 127.0.0.1:2 127.0.0.1:3 127.0.0.1:4 127.0.0.1:5 127.0.0.1:6 127.0.0.1:7 127.0.0.1:8",
    ),
    (
        8,
        9,
        "8 [::1]:1 [::1]:2 [::1]:3 [::1]:4 [::1]:5 [::1]:6 [::1]:7 127.0.0.1:9",
    ),
    (
        8,
        10,
        "8 [::1]:1 [::1]:2 [::1]:3 [::1]:4 [::1]:5 [::1]:6 [::1]:7 127.0.0.1:9",
    ),
    (
        7,
        10,
        "8 [::1]:1 [::1]:2 [::1]:3 [::1]:4 [::1]:5 [::1]:6 [::1]:7 127.0.0.1:8",
    ),
    (
        2,
        10,
        "8 [::1]:1 [::1]:2 127.0.0.1:3 127.0.0.1:4 127.0.0.1:5 127.0.0.1:6 127.0.0.1:7 127.0.0.1:8",
    ),
    (
        3,
        6,
        "6 [::1]:1 [::1]:2 [::1]:3 127.0.0.1:4 127.0.0.1:5 127.0.0.1:6 [::1]:0 [::1]:0",
    ),
];

/// Asserts what is put of each host.
fn check_hosts<R: Abort>(rt: &R, rows: &[(u16, usize, &str)]) {
    for (six, many, want) in rows {
        check(rt, put(*six, *many), want);
    }
}

#[test]
fn keeps_addresses_of_both_families(rt: HostRuntime) {
    check_hosts(&rt, &HOSTS);
}
