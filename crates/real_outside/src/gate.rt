//! The way in: the standard streams, or a TCP listener.
ghost use Rattle.std.specs.Prelude.{◌≡◌, IsTrue};
ghost use Rattle.real_outside.specs.Gates.{gate_faults, is_closed, is_once, nothing_heard};
ghost use Rattle.outside.specs.Gate.{no_connections};

use crate::link::RealLink;
use crate::standard_streams::StandardStreams;
use outside::{Accepted, Gate};
use std::io::Print;
use std::net::SocketAddr;
use system_network::{EndingInput, Network};
use tcp_links::{TcpGate, is_memory};

/// Gives connections of the system. It keeps nothing of those that have ended.
#[derive(Drop)]
pub enum RealGate<R: StandardStreams + Network> {
    /// The standard streams, as one connection.
    Once {
        /// The system, until the connection is given.
        system: Option<R>,
    },
    /// TCP connections to one host and port.
    Tcp {
        /// Where they come in.
        gate: TcpGate<R>,
        /// How often an accept has failed.
        faults: u64,
    },
}

impl<R: StandardStreams + Network> RealGate<R> {
    /// The address at which it listens, in a server that does.
    pub fn own_address(&self) -> Option<SocketAddr> {
        match self {
            RealGate::Once { .. } => None,
            RealGate::Tcp { gate, .. } => gate.own_address(),
        }
    }

    /// Whether it was to listen at an address and couldn't, so that no connection will come.
    pub fn was_refused(&self) -> bool {
        match self {
            RealGate::Once { .. } => false,
            RealGate::Tcp { gate, .. } => gate.was_refused(),
        }
    }

    /// Says that there are threads for so few of the workers that are to serve its connections. Where there is none it gives
    /// no connection by TCP from now on: each accept fails.
    pub fn lack_threads(&mut self, there: u32, workers: u32)
        ensures kind { is_once self.new ≡ is_once self.old }
        ensures same_faults { gate_faults self.new ≡ gate_faults self.old }
    {
        match self {
            RealGate::Once { .. } => {}
            RealGate::Tcp { gate, .. } => gate.lack_threads(there, workers),
        }
    }
}

impl<R: StandardStreams + Print + Network + Drop> Gate for RealGate<R> {
    type Link = RealLink<R>;

    type Past = ();

    ghost connections = { λ _. no_connections };

    ghost closed = { is_closed };

    ghost faults = { gate_faults };

    ghost kept = { λ _. nothing_heard };

    fn accept(&mut self) -> Accepted<RealLink<R>> {
        match self {
            RealGate::Once { system } => match system.take() {
                Some(system) => Accepted::Connection(RealLink::Streams {
                    input: EndingInput::new(system.standard_input()),
                    output: system,
                    faults: 0,
                }),
                None => Accepted::Closed,
            },
            RealGate::Tcp { gate, faults } => match gate.accept() {
                Ok(link) => Accepted::Connection(RealLink::Tcp { link, faults: 0 }),
                Err(error) => {
                    if is_memory(&error) {
                        return Accepted::Memory;
                    }
                    *faults = faults.saturating_add(1);
                    Accepted::Failed
                }
            },
        }
    }

    fn end(mut link: RealLink<R>) {
        link.end();
    }

    fn hang_up(&mut self, _past: ()) {}
}
