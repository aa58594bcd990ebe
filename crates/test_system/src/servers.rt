//! The objects of a server.
//! No case can say it: a case is served over objects in memory, and not over these.
use crate::checked::check;
use crate::loopback::free_port;
use crate::site::site_at;
use call_log::{Written, written};
use folder_model::Lock;
use outside::Dialer;
use real_outside::{Ends, Made, RealClock, RealDialer, RealGate, make};
use system_network::Network;

/// A server of 16 members at a port of the loopback.
fn made_at(rt: &HostRuntime, port: u16) -> Option<Made<HostRuntime>> {
    let site = site_at(rt.alloc(), "127.0.0.1", port).ok()?;
    make(rt, Ends::Network(Some(site)), Lock::Alone, 16).ok()
}

/// How many clients a member sees.
fn clients_seen<R: Network>(dialer: &RealDialer<R>) -> u64 {
    match dialer {
        RealDialer::Echo { .. } => 0,
        RealDialer::Tcp { dialer, .. } => dialer.places().clients(),
    }
}

/// How many clients the members see together, and how many of them connect to a port.
fn asked(
    members: &mut [(RealDialer<HostRuntime>, RealClock<HostRuntime>)],
    port: u16,
) -> (u64, u64) {
    let mut seen = 0u64;
    let mut connected = 0u64;
    for (dialer, _) in members {
        seen = seen.saturating_add(clients_seen(dialer));
        if dialer.dial("127.0.0.1", port).is_ok() {
            connected = connected.saturating_add(1);
        }
    }
    (seen, connected)
}

/// How many members a server's crew has, whether its gate was refused, and where that listens; and while the gate has a
/// client, how many its members see, and how many of them connect to the port at which the gate listens.
fn told(made: &mut Made<HostRuntime>, port: u16) -> Written {
    let client = match &made.gate {
        RealGate::Once { .. } => None,
        RealGate::Tcp { gate, .. } => gate.places().of_client().ok(),
    };
    let (seen, connected) = asked(made.members.as_mut_slice(), port);
    drop(client);
    let (members, refused) = (made.members.len(), made.gate.was_refused());
    let own = match made.gate.own_address() {
        Some(own) => written(own),
        None => Written::new(),
    };
    let own = own.as_str();
    written(format_args!("{members} {refused} {own} {seen} {connected}"))
}

/// The same of a server at a port.
fn serves(rt: HostRuntime, port: u16) -> Written {
    match made_at(&rt, port) {
        Some(mut made) => told(&mut made, port),
        None => Written::new(),
    }
}

#[test]
fn makes_a_server(rt: HostRuntime) {
    let port = free_port(rt);
    let want = written(format_args!("16 false 127.0.0.1:{port} 16 0"));
    check(&rt, serves(rt, port), want.as_str());
}
