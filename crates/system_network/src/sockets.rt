//! The system's network.
ghost use Rattle.std.specs.Prelude.{◌≡◌, ◌<◌, ◌≤◌, true, List, [], ◌∷◌, ◌++◌, cond, length, IfOk};
ghost use Rattle.std.specs.Iterator.{IsFinite, Drains};
ghost use Rattle.std.specs.declared.net.socket_addr.SocketAddr.{SocketAddr};
ghost use Rattle.system_network.specs.Addresses as spec;
ghost use Rattle.system_network.specs.Addresses.{goes_before, ArePut};

use crate::causes::Causes;
use crate::error_lines::put_line;
use crate::network::{Network, Socket};
use std::fmt::Display;
use std::io::{Read, Write};
use std::net::{
    IpAddr, Net, OpenStream, Shutdown, SocketAddr, TcpListener, TcpStream, ToSocketAddrs, UdpSocket,
};
use std::time::{Clock, Duration};
use std::{io, thread};

/// A TCP connection of the system.
#[derive(Drop)]
pub struct SystemSocket {
    stream: TcpStream,
    peer: SocketAddr,
    system: HostRuntime,
}

impl SystemSocket {
    /// Its connection, as the system has it.
    pub fn stream(&self) -> &TcpStream {
        &self.stream
    }
}

impl Causes for SystemSocket {
    fn tell<D: Display + Drop>(&mut self, what: D, call: &str, error: &io::Error) {
        self.system.tell(what, call, error);
    }
}

impl Read for SystemSocket {
    fn read(&mut self, buf: &mut [u8]) -> io::Result<usize> {
        self.stream.read(buf)
    }
}

impl Write for SystemSocket {
    fn write(&mut self, buf: &[u8]) -> io::Result<usize> {
        self.stream.write(buf)
    }

    fn flush(&mut self) -> io::Result<()> {
        Ok(())
    }
}

impl Socket for SystemSocket {
    fn peer(&self) -> SocketAddr {
        self.peer
    }

    fn limit_reads(&mut self, millis: u64) -> io::Result<()> {
        self.stream
            .set_read_timeout(Some(Duration::from_millis(millis)))
    }

    fn limit_writes(&mut self, millis: u64) -> io::Result<()> {
        self.stream
            .set_write_timeout(Some(Duration::from_millis(millis)))
    }

    fn send_at_once(&mut self) -> io::Result<()> {
        self.stream.set_nodelay(true)
    }

    fn end_output(&mut self) -> io::Result<()> {
        self.stream.shutdown(Shutdown::Write)
    }

    fn time(&mut self) -> io::Result<Duration> {
        self.system.monotonic()
    }
}

impl Network for HostRuntime {
    type Socket = SystemSocket;

    type Listener = TcpListener;

    fn listen(&mut self, host: &str, port: u16) -> io::Result<TcpListener> {
        TcpListener::bind(self, (host, port))
    }

    fn address_of(&mut self, listener: &TcpListener) -> io::Result<SocketAddr> {
        listener.local_addr()
    }

    fn announce(&mut self, own: SocketAddr) {
        put_line(format_args!("listening on http://{own}"));
    }

    fn is_here(&mut self, address: IpAddr) -> bool {
        UdpSocket::bind(self, SocketAddr::new(address, 0)).is_ok()
    }

    fn accept(&mut self, listener: &TcpListener) -> io::Result<SystemSocket> {
        let (stream, peer) = listener.accept()?;
        Ok(SystemSocket {
            stream,
            peer,
            system: *self,
        })
    }

    fn find(&mut self, host: &str, port: u16, found: &mut [SocketAddr]) -> io::Result<usize> {
        Ok(put_first((host, port).to_socket_addrs(self)?, found))
    }

    fn connect(&mut self, address: SocketAddr, millis: u64) -> io::Result<SystemSocket> {
        let limit = Duration::from_millis(millis);
        let stream = TcpStream::connect_timeout(self, &address, limit)?;
        Ok(SystemSocket {
            stream,
            peer: address,
            system: *self,
        })
    }

    fn pause(&mut self, millis: u64) {
        thread::sleep(self, Duration::from_millis(millis));
    }
}

/// Puts the first addresses at the front of `found`, as many as there is room for, and answers how many. Where these
/// would be of one family, IPv4 or IPv6, the last place is for the first address of the other one.
pub fn put_first<I: Iterator<Item = SocketAddr> + Drop>(
    addresses: I,
    found: &mut [SocketAddr],
) -> usize
    requires ends { I.Iterator.can_next addresses × IsFinite (I.Iterator.remaining addresses) }
    ensures bound { result ≤ length found.new }
    ensures found { (came : List SocketAddr) × Drains I.Iterator.next_gives addresses came × ArePut came found.old found.new result }
{
    let mut n = 0;
    for address in addresses {
        if n < found.len() {
            found[n] = address;
            n += 1;
        } else {
            put_last(found, address);
        }
    }
    n
}

/// Puts an address in the last place where it goes before the one that stands there.
fn put_last(found: &mut [SocketAddr], address: SocketAddr)
    ensures none { found.old ≡ [] → found.new ≡ [] }
    ensures last { (before : List SocketAddr) (last : SocketAddr) → found.old ≡ before ++ last ∷ [] → found.new ≡ before ++ cond (goes_before before address last) address last ∷ [] }
{
    if goes_last(found, address) {
        let end = found.len() - 1;
        found[end] = address;
    }
}

/// Whether an address is of a family that none before the last of these has, and the last one isn't.
fn goes_last(kept: &[SocketAddr], address: SocketAddr) -> bool
    ensures some { result ≡ true → 0 < length kept.now }
    ensures last { (before : List SocketAddr) (last : SocketAddr) → kept.now ≡ before ++ last ∷ [] → result ≡ goes_before before address last }
{
    let Some((last, before)) = kept.split_last() else {
        return false;
    };
    if has_kin(before, address) {
        return false;
    }
    has_kin(before, *last)
}

/// Whether one of these addresses is of the same family.
fn has_kin(before: &[SocketAddr], address: SocketAddr) -> bool
    ensures { result ≡ spec.has_kin before.now address }
{
    for other in before {
        if is_kin(address, *other) {
            return true;
        }
    }
    false
}

/// Whether two addresses are of one family, IPv4 or IPv6.
fn is_kin(one: SocketAddr, other: SocketAddr) -> bool
    ensures { result ≡ spec.is_kin one other }
{
    match one {
        SocketAddr::V4(_) => other.is_ipv4(),
        SocketAddr::V6(_) => other.is_ipv6(),
    }
}
