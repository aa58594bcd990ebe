//! The system's sockets and addresses.
use crate::checked::check;
use call_log::{Written, answered, then};
use std::io;
use std::io::Read;
use std::net::{IpAddr, TcpListener};
use std::time::Duration;
use system_network::{Network, Socket, SystemSocket};

/// A listener, and a connection of this process to it.
fn connected(mut rt: HostRuntime) -> io::Result<(TcpListener, SystemSocket)> {
    let listener = rt.listen("127.0.0.1", 0)?;
    let address = listener.local_addr()?;
    let socket = Network::connect(&mut rt, address, 10_000)?;
    Ok((listener, socket))
}

/// 1 where the system says that a socket sends at once which is told to.
fn sends_at_once(socket: &mut SystemSocket) -> io::Result<usize> {
    socket.send_at_once()?;
    Ok(usize::from(socket.stream().nodelay()?))
}

/// What the system says of the reads of a socket that is told their limit, in milliseconds.
fn limit_of_reads(socket: &mut SystemSocket) -> io::Result<usize> {
    socket.limit_reads(1_000)?;
    Ok(millis_of(socket.stream().read_timeout()?))
}

/// The same of its writes.
fn limit_of_writes(socket: &mut SystemSocket) -> io::Result<usize> {
    socket.limit_writes(2_000)?;
    Ok(millis_of(socket.stream().write_timeout()?))
}

/// The milliseconds of a limit, or 0 where there is none.
fn millis_of(limit: Option<Duration>) -> usize {
    match limit {
        Some(limit) => usize::try_from(limit.as_millis()).unwrap_or(usize::MAX),
        None => 0,
    }
}

/// 1 where a socket's time goes on for 20 milliseconds or more, and for less than 10 seconds, while its network pauses for
/// 20.
fn waits(mut rt: HostRuntime, socket: &mut SystemSocket) -> io::Result<usize> {
    let start = socket.time()?;
    rt.pause(20);
    let millis = socket.time()?.saturating_sub(start).as_millis();
    Ok(usize::from(matches!(millis, 20..=9_999)))
}

/// What a peer reads that waits for a second, while the socket is still there and has ended its output.
fn read_by_peer(listener: &TcpListener, socket: &mut SystemSocket) -> io::Result<usize> {
    socket.end_output()?;
    let (mut peer, _) = listener.accept()?;
    peer.set_read_timeout(Some(Duration::from_secs(1)))?;
    peer.read(&mut [0u8; 1])
}

/// Whether the loopback and an address that is for documents alone (RFC 5737) are this machine's.
fn are_here(mut rt: HostRuntime) -> (bool, bool) {
    let loopback = rt.is_here(IpAddr::from([127, 0, 0, 1]));
    (loopback, rt.is_here(IpAddr::from([192, 0, 2, 1])))
}

/// What is told of a socket that is connected to a listener.
fn told(rt: HostRuntime, listener: &TcpListener, socket: &mut SystemSocket) -> Written {
    let told = answered(sends_at_once(socket));
    let told = then(told, limit_of_reads(socket));
    let told = then(told, limit_of_writes(socket));
    let told = then(told, waits(rt, socket));
    then(told, read_by_peer(listener, socket))
}

// No case can say it: the links of a case are no sockets and have no settings, and no time goes by there.
#[test]
fn sockets_are_the_systems(rt: HostRuntime) {
    let Ok((listener, mut socket)) = connected(rt) else {
        panic!(rt; "no connection");
    };
    let told = told(rt, &listener, &mut socket);
    check(&rt, told, "1;1000;2000;1;0;");
    assert_eq!(rt; are_here(rt), (true, false));
}
