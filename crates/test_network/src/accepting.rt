//! What a gate does when an accept fails, where it listens, and what a dial tries.
//! No case can say it: the gate and the dialer of a case ask no network.
use crate::checked::check;
use crate::recorded_network::{Comes, LIMITS, Peer, Plan, QUIET, RecordedNetwork, address};
use call_log::{Written, joined, written};
use capture::Memory;
use std::alloc::Global;
use std::io;
use std::process::Abort;
use tcp_links::{Address, Places, TcpDialer, TcpGate, is_memory, leads_back};

const SILENT: Comes = Comes::Connection(Peer::Silent);

const ODD: Comes = Comes::Connection(Peer::Odd);

const REFUSED: Comes = Comes::Error(111);

const NO_MEMORY: Comes = Comes::Error(12);

/// The word for what came.
fn word_of<T: Drop>(came: io::Result<T>) -> &'static str {
    match came {
        Ok(_) => "connection",
        Err(error) => word_of_failure(&error),
    }
}

/// The word for why nothing came.
fn word_of_failure(error: &io::Error) -> &'static str {
    if is_memory(error) { "memory" } else { "failed" }
}

/// A host, in brackets where it is an IPv6 address, and a port.
type Site = Option<(&'static str, u16)>;

/// A gate at a site.
fn gate_at(alloc: Global, at: Site, plan: Plan) -> Result<TcpGate<RecordedNetwork>, Memory> {
    let address = match at {
        Some((host, port)) => Some(Address::new(alloc, host, port)?),
        None => None,
    };
    let network = RecordedNetwork::new(plan);
    Ok(TcpGate::new(network, address, Places::new(alloc)?, LIMITS))
}

/// What two accepts of a gate ask of its network, what came of them, and whether the gate was refused.
fn accepted(gate: &mut TcpGate<RecordedNetwork>) -> Written {
    let first = word_of(gate.accept());
    let second = word_of(gate.accept());
    let refused = gate.was_refused();
    let came = written(format_args!(" {first} {second} {refused}"));
    joined(gate.network().calls, came.as_str())
}

/// The same of a gate at a site, which listens before where it is bound.
fn gives(alloc: Global, at: Site, binds: bool, plan: Plan) -> Written {
    let Ok(mut gate) = gate_at(alloc, at, plan) else {
        return Written::new();
    };
    if binds {
        gate.bind();
    }
    accepted(&mut gate)
}

/// The same of a gate that listens where so many of four workers have a thread. The causes are told.
fn gives_staffed(alloc: Global, there: u32) -> Written {
    let plan = Plan {
        tells: true,
        ..QUIET
    };
    let Ok(mut gate) = gate_at(alloc, Some(("a.test", 80)), plan) else {
        return Written::new();
    };
    gate.bind();
    gate.lack_threads(there, 4);
    accepted(&mut gate)
}

/// What two dials ask of a network, and what came of them, where the program listens at its own address or doesn't.
fn dials(alloc: Global, own: Option<u8>, plan: Plan) -> Written {
    let own = match own {
        Some(last) => Some(address(last)),
        None => None,
    };
    let network = RecordedNetwork::new(plan);
    match Places::new(alloc) {
        Ok(places) => dialed(&mut TcpDialer::new(network, places, LIMITS, own)),
        Err(_) => Written::new(),
    }
}

/// The same of a dialer.
fn dialed(dialer: &mut TcpDialer<RecordedNetwork>) -> Written {
    let first = word_of(dialer.dial("[::1]", 80));
    let second = word_of(dialer.dial("[::1]", 80));
    let came = written(format_args!(" {first} {second}"));
    joined(dialer.network().calls, came.as_str())
}

const AGAIN: &str =
    "listen a.test 8080;ready 10.0.0.9:80;accept;accept;accept; connection connection false";

const WAITS: &str =
    "listen a.test 8080;ready 10.0.0.9:80;accept;pause 5;accept;accept; connection connection false";

const ENDS: &str = "listen a.test 8080;ready 10.0.0.9:80;accept;accept; failed connection false";

/// An accept's error, and what is asked then. What fails with one connection ends no gate.
static FAILED_ACCEPTS: [(&[Comes], &str); 21] = [
    // ECONNABORTED, EPROTO, EHOSTUNREACH, ENETUNREACH, ENETDOWN, ENOPROTOOPT, ENONET, EOPNOTSUPP, EHOSTDOWN,
    // EPERM, ECONNRESET, ETIMEDOUT, EINTR, EAGAIN
    (&[Comes::Error(103)], AGAIN),
    (&[Comes::Error(71)], AGAIN),
    (&[Comes::Error(113)], AGAIN),
    (&[Comes::Error(101)], AGAIN),
    (&[Comes::Error(100)], AGAIN),
    (&[Comes::Error(92)], AGAIN),
    (&[Comes::Error(64)], AGAIN),
    (&[Comes::Error(95)], AGAIN),
    (&[Comes::Error(112)], AGAIN),
    (&[Comes::Error(1)], AGAIN),
    (&[Comes::Error(104)], AGAIN),
    (&[Comes::Error(110)], AGAIN),
    (&[Comes::Error(4)], AGAIN),
    (&[Comes::Error(11)], AGAIN),
    // EMFILE, ENFILE, ENOBUFS, ENOMEM
    (&[Comes::Error(24)], WAITS),
    (&[Comes::Error(23)], WAITS),
    (&[Comes::Error(105)], WAITS),
    (&[Comes::Error(12)], WAITS),
    // EBADF, EINVAL, ENOTSOCK
    (&[Comes::Error(9)], ENDS),
    (&[Comes::Error(22)], ENDS),
    (&[Comes::Error(88)], ENDS),
];

/// Where a gate is, what comes there, and what is asked and given where it is bound before.
static ADDRESSES: [(Site, Plan, &str); 7] = [
    (
        Some(("[::1]", 9090)),
        QUIET,
        "listen ::1 9090;ready 10.0.0.9:80;accept;accept; connection connection false",
    ),
    (
        Some(("a.test", 80)),
        QUIET,
        "listen a.test 80;ready 10.0.0.9:80;accept;accept; connection connection false",
    ),
    (
        Some(("127.0.0.1", 8080)),
        Plan {
            refuses: Some(98),
            ..QUIET
        },
        "listen 127.0.0.1 8080;listen 127.0.0.1 8080;listen 127.0.0.1 8080; failed failed true",
    ),
    (
        Some(("a.test", 80)),
        Plan {
            comes: &[ODD],
            ..QUIET
        },
        "listen a.test 80;ready 10.0.0.9:80;accept;accept;accept; connection connection false",
    ),
    (
        Some(("a.test", 80)),
        Plan {
            comes: &[NO_MEMORY; 8],
            ..QUIET
        },
        "listen a.test 80;ready 10.0.0.9:80;accept;pause 5;accept;pause 5;accept;pause 5;accept;accept;pause 5;accept;pause 5;accept;pause 5;accept; memory memory false",
    ),
    // With the cause of each fault.
    (
        Some(("[::1]", 80)),
        Plan {
            refuses: Some(98),
            tells: true,
            ..QUIET
        },
        "listen ::1 80;listen ::1 80;[::1]:80: listen: Address already in use (os error 98);listen ::1 80;[::1]:80: listen: Address already in use (os error 98); failed failed true",
    ),
    (
        None,
        Plan {
            tells: true,
            ..QUIET
        },
        "MEMPROXY_LISTEN: listen: no HOST:PORT to listen at;MEMPROXY_LISTEN: listen: no HOST:PORT to listen at; failed failed true",
    ),
];

/// Asserts what is asked after each accept's error.
fn check_accepts<R: Abort>(rt: &R, alloc: Global, rows: &[(&'static [Comes], &str)]) {
    for (comes, want) in rows {
        let plan = Plan {
            comes: *comes,
            ..QUIET
        };
        check(rt, gives(alloc, Some(("a.test", 8080)), false, plan), want);
    }
}

/// Asserts what is asked and given at each address.
fn check_addresses<R: Abort>(rt: &R, alloc: Global, rows: &[(Site, Plan, &str)]) {
    for (at, plan, want) in rows {
        check(rt, gives(alloc, *at, true, *plan), want);
    }
}

/// How many of four workers have a thread, and what is asked and given then.
static STAFFS: [(u32, &str); 2] = [
    (
        0,
        "listen a.test 80;a.test:80: listen: no thread for a worker;a.test:80: listen: no thread for a worker; failed failed true",
    ),
    (
        3,
        "listen a.test 80;3 of 4 workers: start: no thread for the others;ready 10.0.0.9:80;accept;accept; connection connection false",
    ),
];

/// Asserts what is asked and given by each staff.
fn check_staffs<R: Abort>(rt: &R, alloc: Global, rows: &[(u32, &str)]) {
    for (there, want) in rows {
        check(rt, gives_staffed(alloc, *there), want);
    }
}

#[test]
fn listens_and_accepts(rt: HostRuntime) {
    check_accepts(&rt, rt.alloc(), &FAILED_ACCEPTS);
    check_addresses(&rt, rt.alloc(), &ADDRESSES);
    check_staffs(&rt, rt.alloc(), &STAFFS);
}

/// The last number of the program's own address, what is at each address of a host, and what is asked and comes.
static DIALS: [(Option<u8>, Plan, &str); 10] = [
    (
        None,
        QUIET,
        "find ::1 80;connect 10.0.0.1:80 in 450;find ::1 80;connect 10.0.0.1:80 in 450; connection connection",
    ),
    (
        None,
        Plan {
            many: 3,
            comes: &[REFUSED],
            ..QUIET
        },
        "find ::1 80;connect 10.0.0.1:80 in 300;connect 10.0.0.2:80 in 300;find ::1 80;connect 10.0.0.2:80 in 300; connection connection",
    ),
    (
        None,
        Plan {
            many: 3,
            comes: &[REFUSED, SILENT, REFUSED, REFUSED, REFUSED],
            ..QUIET
        },
        "find ::1 80;connect 10.0.0.1:80 in 300;connect 10.0.0.2:80 in 300;find ::1 80;connect 10.0.0.2:80 in 300;connect 10.0.0.1:80 in 300;connect 10.0.0.3:80 in 300; connection failed",
    ),
    (
        None,
        Plan {
            many: 1,
            comes: &[NO_MEMORY, Comes::Error(110)],
            ..QUIET
        },
        "find ::1 80;connect 10.0.0.1:80 in 900;find ::1 80;connect 10.0.0.1:80 in 900; memory failed",
    ),
    (
        None,
        Plan { many: 0, ..QUIET },
        "find ::1 80;find ::1 80; failed failed",
    ),
    (
        None,
        Plan {
            refuses: Some(2),
            ..QUIET
        },
        "find ::1 80;find ::1 80; failed failed",
    ),
    (
        None,
        Plan {
            refuses: Some(12),
            ..QUIET
        },
        "find ::1 80;find ::1 80; memory memory",
    ),
    (
        Some(1),
        QUIET,
        "find ::1 80;connect 10.0.0.2:80 in 450;find ::1 80;connect 10.0.0.2:80 in 450; connection connection",
    ),
    (
        Some(1),
        Plan { many: 1, ..QUIET },
        "find ::1 80;find ::1 80; failed failed",
    ),
    // With the cause of each fault.
    (
        Some(1),
        Plan {
            comes: &[REFUSED, REFUSED],
            tells: true,
            ..QUIET
        },
        "find ::1 80;connect 10.0.0.2:80 in 450;[::1]:80: connect: Connection refused (os error 111);find ::1 80;connect 10.0.0.2:80 in 450;[::1]:80: connect: Connection refused (os error 111); failed failed",
    ),
];

/// Asserts what each dial asks, and what comes.
fn check_dials<R: Abort>(rt: &R, alloc: Global, rows: &[(Option<u8>, Plan, &str)]) {
    for (own, plan, want) in rows {
        check(rt, dials(alloc, *own, *plan), want);
    }
}

#[test]
fn dials_each_address_in_turn(rt: HostRuntime) {
    check_dials(&rt, rt.alloc(), &DIALS);
}

/// Two addresses, and whether a connection to the first comes to a listener at the second.
static LOOPS: [(&str, &str, &str); 12] = [
    ("127.0.0.1:80", "127.0.0.1:80", "true"),
    ("127.0.0.1:81", "127.0.0.1:80", "false"),
    ("127.0.0.2:80", "127.0.0.1:80", "false"),
    ("0.0.0.0:80", "127.0.0.1:80", "true"),
    ("[::]:80", "[::1]:80", "true"),
    ("[::]:80", "127.0.0.1:80", "false"),
    ("[::ffff:127.0.0.1]:80", "127.0.0.1:80", "true"),
    ("10.0.0.1:80", "0.0.0.0:80", "true"),
    ("10.0.0.2:80", "0.0.0.0:80", "false"),
    ("[::1]:80", "0.0.0.0:80", "false"),
    ("10.0.0.1:80", "[::]:80", "true"),
    ("10.0.0.1:80", "[::1]:80", "false"),
];

/// Whether a connection to the first address comes to the second. Nothing where one of them is no address.
fn comes_back(first: &str, second: &str) -> Written {
    let Ok(to) = first.parse() else {
        return Written::new();
    };
    let Ok(own) = second.parse() else {
        return Written::new();
    };
    written(leads_back(&mut RecordedNetwork::new(QUIET), to, own))
}

/// Asserts whether each connection comes back.
fn check_loops<R: Abort>(rt: &R, rows: &[(&str, &str, &str)]) {
    for (to, own, want) in rows {
        check(rt, comes_back(to, own), want);
    }
}

#[test]
fn knows_its_own_address(rt: HostRuntime) {
    check_loops(&rt, &LOOPS);
}
