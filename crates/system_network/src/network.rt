//! The network as the program uses it, so that a test can stand in for it.
ghost use Rattle.std.specs.Prelude.{◌≤◌, length, IfOk};

use crate::causes::Causes;
use std::io;
use std::io::{Read, Write};
use std::net::{IpAddr, SocketAddr};
use std::time::Duration;

/// One end of a TCP connection (RFC 9293), which is closed where it is dropped. A read of 0 bytes is the end of what
/// the peer sends. A limit of 0 milliseconds is refused.
pub trait Socket: Read + Write + Causes {
    /// The address at the other end.
    fn peer(&self) -> SocketAddr;

    /// Limits how long a read waits, which then fails with `WouldBlock`.
    fn limit_reads(&mut self, millis: u64) -> io::Result<()>;

    /// Limits how long a write waits for the peer, likewise.
    fn limit_writes(&mut self, millis: u64) -> io::Result<()>;

    /// Sends each piece at once, however small it is.
    fn send_at_once(&mut self) -> io::Result<()>;

    /// Tells the peer that nothing more comes.
    fn end_output(&mut self) -> io::Result<()>;

    /// The time since some start, which doesn't go back.
    fn time(&mut self) -> io::Result<Duration>;
}

/// Listens and connects by TCP.
pub trait Network: Causes {
    /// One end of a connection.
    type Socket: Socket + Drop;

    /// What connections come to.
    type Listener: Drop;

    /// Listens at a host, an IPv6 address without brackets, and a port.
    fn listen(&mut self, host: &str, port: u16) -> io::Result<Self::Listener>;

    /// The address at which it listens.
    fn address_of(&mut self, listener: &Self::Listener) -> io::Result<SocketAddr>;

    /// Says that connections are accepted from now on, and at which address, for who waits for that. Where it can't be said, nothing
    /// comes of it.
    fn announce(&mut self, own: SocketAddr);

    /// Whether an address is one of this machine's.
    fn is_here(&mut self, address: IpAddr) -> bool;

    /// The next connection, for which it waits without a limit.
    fn accept(&mut self, listener: &Self::Listener) -> io::Result<Self::Socket>;

    /// Puts a host's first addresses at the front of `found`, and answers how many.
    fn find(&mut self, host: &str, port: u16, found: &mut [SocketAddr]) -> io::Result<usize>
        ensures { IfOk result (λ n. n ≤ length found.new) };

    /// Connects to an address within so many milliseconds.
    fn connect(&mut self, address: SocketAddr, millis: u64) -> io::Result<Self::Socket>;

    /// Waits so many milliseconds.
    fn pause(&mut self, millis: u64);
}
