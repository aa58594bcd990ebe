//! Connections to hosts by TCP.
use crate::brackets::without_brackets;
use crate::limits::Limits;
use crate::own_address::leads_back;
use crate::places::Places;
use crate::tcp::link::TcpLink;
use crate::worked::Worked;
use std::fmt::{Display, Formatter};
use std::io::ErrorKind;
use std::net::{Ipv4Addr, SocketAddr};
use std::{fmt, io};
use system_network::Network;

/// The most addresses of one host that are tried. With more, a connect's part of the limit would be too short for
/// the second try of a handshake, which comes after a second (RFC 6298).
const MOST_ADDRESSES: usize = 8;

/// Connects to origins.
#[derive(Drop)]
pub struct TcpDialer<N> {
    network: N,
    places: Places,
    limits: Limits,
    /// Where this program listens itself.
    own: Option<SocketAddr>,
    worked: Worked,
}

impl<N> TcpDialer<N> {
    /// A dialer of a program that listens at its own address, if it does.
    pub fn new(
        network: N,
        places: Places,
        limits: Limits,
        own: Option<SocketAddr>,
    ) -> TcpDialer<N> {
        TcpDialer {
            network,
            places,
            limits,
            own,
            worked: Worked::new(),
        }
    }
}

impl<N: Network> TcpDialer<N> {
    /// What its calls are made of.
    pub fn network(&self) -> &N {
        &self.network
    }

    /// The places of connections that it knows of.
    pub fn places(&self) -> &Places {
        &self.places
    }

    /// Connects to a host, an IPv6 address in brackets, and a port. The cause of a failure is told.
    pub fn dial(&mut self, host: &str, port: u16) -> io::Result<TcpLink<N::Socket>> {
        let dialed = self.dial_first(host, port);
        if let Err(error) = &dialed {
            self.network.tell(Origin { host, port }, "connect", error);
        }
        dialed
    }

    /// Connects to the first of a host's addresses that answers, of which the one that did so last is tried first. The
    /// addresses have equal parts of the limit. A host without addresses fails, and so does one of which the last
    /// address fails.
    fn dial_first(&mut self, host: &str, port: u16) -> io::Result<TcpLink<N::Socket>> {
        let mut found = [SocketAddr::from((Ipv4Addr::UNSPECIFIED, port)); MOST_ADDRESSES];
        let many = self.network.find(without_brackets(host), port, &mut found)?;
        let found = &mut found[..many];
        self.worked.bring_first(found);
        let mut last = io::Error::from(ErrorKind::AddrNotAvailable);
        for address in found {
            match self.connect(*address, many as u64) {
                Ok(link) => {
                    self.worked.note(*address);
                    return Ok(link);
                }
                Err(error) => last = error,
            }
        }
        Err(last)
    }

    /// Connects to one of so many addresses of a host. The program's own isn't tried: who waits for the answer would
    /// be who has to give it.
    fn connect(&mut self, address: SocketAddr, many: u64) -> io::Result<TcpLink<N::Socket>> {
        if let Some(own) = self.own {
            if leads_back(&mut self.network, address, own) {
                return Err(io::Error::new(
                    ErrorKind::Deadlock,
                    "the address is this program's own",
                ));
            }
        }
        let share = self.limits.connect / many.max(1);
        let socket = self.network.connect(address, share)?;
        TcpLink::of_origin(socket, self.places.of_origin()?, &self.limits)
    }
}

/// A host, an IPv6 address in brackets, and a port.
#[derive(Clone, Copy)]
struct Origin<'a> {
    host: &'a str,
    port: u16,
}

impl Display for Origin<'_> {
    fn fmt<W: fmt::Write>(&self, f: &mut Formatter<W>) -> fmt::Result {
        let (host, port) = (self.host, self.port);
        write!(f, "{host}:{port}")
    }
}
