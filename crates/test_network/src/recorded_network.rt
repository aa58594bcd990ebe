//! A network of records: it gives what a test lists, and writes each call down.
ghost use Rattle.std.specs.Prelude.{◌≡◌, ◌≤◌, length, IfOk};

use call_log::{Written, called, cause, joined, numbered, written};
use std::fmt::Display;
use std::io;
use std::io::{Error, ErrorKind, Print, Read, Write};
use std::net::{IpAddr, SocketAddr};
use std::time::Duration;
use system_network::{Causes, Network, Socket};
use tcp_links::Limits;

/// Limits of which each has a length of its own.
pub(crate) const LIMITS: Limits = Limits {
    fresh: 500,
    fresh_crowded: 200,
    idle: 300,
    idle_crowded: 100,
    piece: 5_000,
    piece_crowded: 3_000,
    request: 8_000,
    origin: 3_000,
    write: 2_000,
    write_crowded: 1_500,
    write_turn: 500,
    whole: 4_000,
    whole_crowded: 2_500,
    connect: 900,
    linger: 400,
    linger_crowded: 200,
    pause: 5,
    most_pauses: 3,
    most_clients: 2,
};

/// A peer as a test wants it.
#[derive(Clone, Copy)]
pub(crate) enum Peer {
    /// It sends so many bytes with each read, 150 milliseconds after it began.
    Slow(usize),
    /// It sends so many bytes at once, and after each write too, and as many three seconds after each further read
    /// began.
    Trickles(usize),
    /// It sends so many bytes once, and then nothing.
    SendsOnce(usize),
    /// It sends nothing.
    Silent,
    /// It has closed the connection.
    Ended,
    /// It has reset the connection.
    Reset,
    /// It takes nothing.
    TakesNothing,
    /// It takes a byte each 1,400 milliseconds.
    TakesBytes,
    /// It takes nothing, but its system takes so many bytes at once, and the write waits for room to its limit.
    Keeps(usize),
    /// It can't be given limits of time.
    Odd,
    /// So many calls fail so, and then each gives or takes so many bytes at once.
    Fails(u32, ErrorKind, usize),
}

/// How often a peer takes a byte that does so now and then.
const BYTE_MILLIS: u64 = 1_400;

/// A socket that waits for nobody: what would wait moves its clock on, by its limit at most.
#[derive(Clone, Copy)]
pub(crate) struct RecordedSocket {
    pub(crate) calls: Written,
    /// The causes of faults that it was told, a space before each.
    pub(crate) causes: Written,
    pub(crate) peer: Peer,
    pub(crate) millis: u64,
    has_begun: bool,
    read_limit: u64,
    write_limit: u64,
    /// When the last byte was taken, where bytes are taken now and then.
    taken_at: u64,
}

impl RecordedSocket {
    /// A connection to this peer.
    pub(crate) fn new(peer: Peer) -> RecordedSocket {
        RecordedSocket {
            calls: Written::new(),
            causes: Written::new(),
            peer,
            millis: 0,
            has_begun: false,
            read_limit: 0,
            write_limit: 0,
            taken_at: 0,
        }
    }

    /// Writes a call down.
    fn call(&mut self, word: &str) {
        self.calls = joined(joined(self.calls, word), ";");
    }

    /// What a call answers whose peer is ready after so long, where it may wait so long.
    fn after(&mut self, millis: u64, limit: u64, n: usize) -> io::Result<usize>
        ensures { IfOk result (λ m. m ≤ n) }
    {
        self.millis = self.millis.saturating_add(millis.min(limit));
        if millis > limit {
            return Err(Error::from(ErrorKind::WouldBlock));
        }
        Ok(n)
    }
}

impl RecordedSocket {
    /// What a call answers whose peer fails so often and so, and then gives or takes so many bytes.
    fn failing(&mut self, often: u32, kind: ErrorKind, n: usize, most: usize) -> io::Result<usize>
        ensures { IfOk result (λ m. m ≤ most) }
    {
        if often == 0 {
            return Ok(n.min(most));
        }
        self.peer = Peer::Fails(often - 1, kind, n);
        Err(Error::from(kind))
    }

    /// What a write of so many bytes answers where a byte is taken now and then.
    fn give_byte(&mut self, most: usize) -> io::Result<usize>
        ensures { IfOk result (λ m. m ≤ most) }
    {
        let ready = self.taken_at.saturating_add(BYTE_MILLIS);
        let n = self.after(
            ready.saturating_sub(self.millis),
            self.write_limit,
            most.min(1),
        )?;
        self.taken_at = self.millis;
        Ok(n)
    }

    /// What a write of so many bytes answers where the system takes some of them, and the peer none.
    fn keep(&mut self, n: usize, most: usize) -> io::Result<usize>
        ensures { IfOk result (λ m. m ≤ most) }
    {
        self.peer = Peer::TakesNothing;
        let limit = self.write_limit;
        self.after(limit, limit, n.min(most))
    }
}

impl Read for RecordedSocket {
    fn read(&mut self, buf: &mut [u8]) -> io::Result<usize> {
        self.call("read");
        let begun = self.has_begun;
        self.has_begun = true;
        let (millis, n) = match self.peer {
            Peer::Slow(n) => (150, n),
            Peer::Trickles(n) if begun => (3_000, n),
            Peer::Trickles(n) => (0, n),
            Peer::SendsOnce(n) if !begun => (0, n),
            Peer::Ended => (0, 0),
            Peer::Reset => return Err(Error::from(ErrorKind::ConnectionReset)),
            Peer::Fails(often, kind, n) => return self.failing(often, kind, n, buf.len()),
            _ => (u64::MAX, 0),
        };
        self.after(millis, self.read_limit, n.min(buf.len()))
    }
}

impl Write for RecordedSocket {
    fn write(&mut self, buf: &[u8]) -> io::Result<usize> {
        self.call("write");
        self.has_begun = self.has_begun && !matches!(self.peer, Peer::Trickles(_));
        let (millis, n) = match self.peer {
            Peer::TakesNothing => (u64::MAX, 0),
            Peer::TakesBytes => return self.give_byte(buf.len()),
            Peer::Keeps(n) => return self.keep(n, buf.len()),
            Peer::Fails(often, kind, n) => return self.failing(often, kind, n, buf.len()),
            _ => (0, buf.len()),
        };
        self.after(millis, self.write_limit, n)
    }

    fn flush(&mut self) -> io::Result<()> {
        Ok(())
    }
}

impl Causes for RecordedSocket {
    fn tell<D: Display + Drop>(&mut self, what: D, call: &str, error: &io::Error) {
        let line = cause(what, call, error);
        self.causes = joined(joined(self.causes, " "), line.as_str());
    }
}

impl Socket for RecordedSocket {
    fn peer(&self) -> SocketAddr {
        address(7)
    }

    fn limit_reads(&mut self, millis: u64) -> io::Result<()> {
        self.call(numbered("in", millis).as_str());
        self.read_limit = millis;
        Ok(())
    }

    fn limit_writes(&mut self, millis: u64) -> io::Result<()> {
        if matches!(self.peer, Peer::Odd) {
            return Err(Error::from(ErrorKind::InvalidInput));
        }
        self.call(numbered("out", millis).as_str());
        self.write_limit = millis;
        Ok(())
    }

    fn send_at_once(&mut self) -> io::Result<()> {
        self.call("at once");
        Ok(())
    }

    fn end_output(&mut self) -> io::Result<()> {
        self.call("end output");
        Ok(())
    }

    fn time(&mut self) -> io::Result<Duration> {
        Ok(Duration::from_millis(self.millis))
    }
}

/// What an accept, or a connect, gives next.
#[derive(Clone, Copy)]
pub(crate) enum Comes {
    /// A connection to this peer.
    Connection(Peer),
    /// The error of this number.
    Error(i32),
}

/// The last number of the last address of a host.
const LAST: u8 = 8;

/// The port 80 of the address 10.0.0.0 whose last number is this.
pub(crate) fn address(last: u8) -> SocketAddr {
    SocketAddr::from(([10, 0, 0, last], 80))
}

/// What a network gives and answers.
#[derive(Clone, Copy)]
pub(crate) struct Plan {
    /// What comes of accepts or connects in turn. Then silent peers come.
    pub(crate) comes: &'static [Comes],
    /// How many addresses each host has.
    pub(crate) many: usize,
    /// The error of a call that listens or looks a host up.
    pub(crate) refuses: Option<i32>,
    /// How many milliseconds it has to pause until its output takes three bytes at once. Before, it takes nothing yet.
    pub(crate) takes_after: u64,
    /// Whether the causes of faults are written down too.
    pub(crate) tells: bool,
}

/// Hosts have two addresses, and a silent peer is at each.
pub(crate) const QUIET: Plan = Plan {
    comes: &[],
    many: 2,
    refuses: None,
    takes_after: 20,
    tells: false,
};

/// Writes each call down, and answers as planned.
#[derive(Clone, Copy)]
pub(crate) struct RecordedNetwork {
    pub(crate) calls: Written,
    given: usize,
    /// How many milliseconds it paused in all.
    paused: u64,
    plan: Plan,
}

impl RecordedNetwork {
    /// A network of which nothing was asked yet.
    pub(crate) fn new(plan: Plan) -> RecordedNetwork {
        RecordedNetwork {
            calls: Written::new(),
            given: 0,
            paused: 0,
            plan,
        }
    }

    /// Writes a call down.
    fn call(&mut self, call: &str) {
        self.calls = joined(joined(self.calls, call), ";");
    }

    /// What comes next.
    fn next(&mut self) -> io::Result<RecordedSocket> {
        let comes = match self.plan.comes.get(self.given) {
            Some(comes) => *comes,
            None => Comes::Connection(Peer::Silent),
        };
        self.given = self.given.saturating_add(1);
        match comes {
            Comes::Connection(peer) => Ok(RecordedSocket::new(peer)),
            Comes::Error(number) => Err(Error::from_raw_os_error(number)),
        }
    }
}

/// Puts the addresses of a host, as many as there is room for.
fn put_addresses(found: &mut [SocketAddr])
    ensures { length found.new ≡ length found.old }
{
    for (place, last) in found.iter_mut().zip(1..=LAST) {
        *place = address(last);
    }
}

impl Causes for RecordedNetwork {
    fn tell<D: Display + Drop>(&mut self, what: D, call: &str, error: &io::Error) {
        if self.plan.tells {
            let line = cause(what, call, error);
            self.calls = joined(self.calls, line.as_str());
        }
    }
}

impl Network for RecordedNetwork {
    type Socket = RecordedSocket;

    type Listener = ();

    fn listen(&mut self, host: &str, port: u16) -> io::Result<()> {
        self.call(numbered(called("listen", host).as_str(), u64::from(port)).as_str());
        match self.plan.refuses {
            Some(number) => Err(Error::from_raw_os_error(number)),
            None => Ok(()),
        }
    }

    fn address_of(&mut self, _listener: &()) -> io::Result<SocketAddr> {
        Ok(address(9))
    }

    fn announce(&mut self, own: SocketAddr) {
        let own = written(own);
        self.call(called("ready", own.as_str()).as_str());
    }

    fn is_here(&mut self, address: IpAddr) -> bool {
        address.is_loopback() || address == IpAddr::from([10, 0, 0, 1])
    }

    fn accept(&mut self, _listener: &()) -> io::Result<RecordedSocket> {
        self.call("accept");
        self.next()
    }

    fn find(&mut self, host: &str, port: u16, found: &mut [SocketAddr]) -> io::Result<usize> {
        self.call(numbered(called("find", host).as_str(), u64::from(port)).as_str());
        let many = found.len().min(self.plan.many);
        put_addresses(found);
        match self.plan.refuses {
            Some(number) => Err(Error::from_raw_os_error(number)),
            None => Ok(many),
        }
    }

    fn connect(&mut self, address: SocketAddr, millis: u64) -> io::Result<RecordedSocket> {
        let address = written(address);
        let call = called("connect", address.as_str());
        self.call(numbered(joined(call, " in").as_str(), millis).as_str());
        self.next()
    }

    fn pause(&mut self, millis: u64) {
        self.call(numbered("pause", millis).as_str());
        self.paused = self.paused.saturating_add(millis);
    }
}

/// What is printed is dropped.
impl Print for RecordedNetwork {
    fn print<D: Display + Drop>(&self, _value: D) -> io::Result<()> {
        Ok(())
    }

    fn println<D: Display + Drop>(&self, _value: D) -> io::Result<()> {
        Ok(())
    }

    fn write_all(&self, _bytes: &[u8]) -> io::Result<()> {
        Ok(())
    }

    fn write_some(&self, bytes: &[u8]) -> io::Result<usize> {
        if self.paused < self.plan.takes_after {
            return Err(Error::from(ErrorKind::WouldBlock));
        }
        Ok(bytes.len().min(3))
    }
}
