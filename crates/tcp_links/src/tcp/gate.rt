//! Where connections come in by TCP.
use crate::accept_faults::{AcceptFault, fault_of};
use crate::limits::Limits;
use crate::listening::{Address, LISTEN};
use crate::places::Places;
use crate::tcp::link::TcpLink;
use std::fmt::{Display, Formatter};
use std::io::ErrorKind;
use std::net::SocketAddr;
use std::{fmt, io};
use system_network::Network;

/// Listens at an address, from when it is bound or else from the first accept on. Without one it gives no connection.
#[derive(Drop)]
pub struct TcpGate<N: Network> {
    network: N,
    address: Option<Address>,
    listener: Option<N::Listener>,
    /// Where the listener is.
    own: Option<SocketAddr>,
    /// Whether that was said.
    announced: bool,
    /// Whether it was to listen and couldn't.
    refused: bool,
    /// Whether nobody would serve its connections.
    unserved: bool,
    places: Places,
    limits: Limits,
}

impl<N: Network> TcpGate<N> {
    /// A gate that doesn't listen yet.
    pub fn new(network: N, address: Option<Address>, places: Places, limits: Limits) -> TcpGate<N> {
        TcpGate {
            network,
            address,
            listener: None,
            own: None,
            announced: false,
            refused: false,
            unserved: false,
            places,
            limits,
        }
    }

    /// What its calls are made of.
    pub fn network(&self) -> &N {
        &self.network
    }

    /// The places of its connections.
    pub fn places(&self) -> &Places {
        &self.places
    }

    /// The next connection, when there is a place for it. It fails where the address can't be bound, where nobody would serve it, and where the
    /// listener or memory fails. Before the first one it says where connections are accepted.
    pub fn accept(&mut self) -> io::Result<TcpLink<N::Socket>> {
        let listener = match self.listener.take() {
            Some(listener) => listener,
            None => self.listen_aloud()?,
        };
        self.announce();
        wait_for_place(&mut self.network, &self.places, &self.limits);
        let came = next_link(&mut self.network, &listener, &self.places, &self.limits);
        if let Err(error) = &came {
            self.tell("accept", error);
        }
        self.listener = Some(listener);
        came
    }

    /// Listens from now on. Where that fails, the next accept tries again, and tells the cause.
    pub fn bind(&mut self) {
        match self.listen() {
            Ok(listener) => self.listener = Some(listener),
            Err(_) => self.refused = true,
        }
    }

    /// Says that there are threads for so few of the workers that are to serve its connections. Where there is none it
    /// doesn't listen from now on: the next accept fails, and tells the cause.
    pub fn lack_threads(&mut self, there: u32, workers: u32) {
        if there == 0 {
            self.listener = None;
            self.refused = true;
            self.unserved = true;
            return;
        }
        let error = io::Error::new(ErrorKind::ResourceBusy, "no thread for the others");
        self.network.tell(Staff { there, workers }, "start", &error);
    }

    /// Where it listens.
    pub fn own_address(&self) -> Option<SocketAddr> {
        self.own
    }

    /// Whether it was to listen and couldn't.
    pub fn was_refused(&self) -> bool {
        self.refused
    }

    /// A listener at the gate's address. The cause of a failure is told.
    fn listen_aloud(&mut self) -> io::Result<N::Listener> {
        let listens = self.listen();
        if let Err(error) = &listens {
            self.tell("listen", error);
        }
        listens
    }

    /// A listener at the gate's address.
    fn listen(&mut self) -> io::Result<N::Listener> {
        if self.unserved {
            return Err(io::Error::new(ErrorKind::ResourceBusy, "no thread for a worker"));
        }
        let listener = match &self.address {
            Some(address) => self.network.listen(address.host(), address.port())?,
            None => {
                return Err(io::Error::new(
                    ErrorKind::AddrNotAvailable,
                    "no HOST:PORT to listen at",
                ));
            }
        };
        self.own = self.network.address_of(&listener).ok();
        Ok(listener)
    }

    /// Says once where it listens.
    fn announce(&mut self) {
        if self.announced {
            return;
        }
        self.announced = true;
        if let Some(own) = self.own {
            self.network.announce(own);
        }
    }

    /// Tells why a call at the gate's address failed.
    fn tell(&mut self, call: &str, error: &io::Error) {
        match &self.address {
            Some(address) => self.network.tell(address, call, error),
            None => self.network.tell(LISTEN, call, error),
        }
    }
}

/// How many of so many workers have a thread.
#[derive(Clone, Copy)]
struct Staff {
    there: u32,
    workers: u32,
}

impl Display for Staff {
    fn fmt<W: fmt::Write>(&self, f: &mut Formatter<W>) -> fmt::Result {
        let (there, workers) = (self.there, self.workers);
        write!(f, "{there} of {workers} workers")
    }
}

/// Waits until fewer clients than the most are served or wait. Those that connect meanwhile wait in the system.
fn wait_for_place<N: Network>(network: &mut N, places: &Places, limits: &Limits) {
    for _ in 0..u64::MAX {
        if places.clients() < limits.most_clients {
            return;
        }
        network.pause(limits.pause);
    }
}

/// The next connection that lives long enough to be served. What goes wrong with one connection ends no gate, and
/// where the system has no room it is tried again when some have been closed.
fn next_link<N: Network>(
    network: &mut N,
    listener: &N::Listener,
    places: &Places,
    limits: &Limits,
) -> io::Result<TcpLink<N::Socket>> {
    let mut memory_pauses = 0;
    for _ in 0..u64::MAX {
        let error = match network.accept(listener) {
            Ok(socket) => match TcpLink::of_client(socket, places.of_client()?, limits) {
                Ok(link) => return Ok(link),
                Err(_) => continue,
            },
            Err(error) => error,
        };
        match fault_of(&error) {
            AcceptFault::Connection => {}
            AcceptFault::Room => network.pause(limits.pause),
            AcceptFault::Memory => {
                if memory_pauses >= limits.most_pauses {
                    return Err(error);
                }
                memory_pauses += 1;
                network.pause(limits.pause);
            }
            AcceptFault::Listener => return Err(error),
        }
    }
    Err(io::Error::from(ErrorKind::Interrupted))
}
