//! Connections of the system.
ghost use Rattle.std.specs.Prelude.{◌↔◌, ◌<◌, false, [], IsTrue};
ghost use Rattle.real_outside.specs.Links.{link_faults};
ghost use Rattle.outside.specs.Link.{no_traffic};

use crate::faults::told;
use crate::standard_streams::StandardStreams;
use folder_disk::counted;
use outside::{EchoLink, Failed, Link};
use std::io::Print;
use system_network::{EndingInput, Network, print_when_taken};
use tcp_links::TcpLink;

/// One end of a connection, with its count of faults. It doesn't tell what it gives and takes.
#[derive(Drop)]
pub enum RealLink<R: StandardStreams + Network> {
    /// The program's standard input and output.
    Streams {
        /// Standard input.
        input: EndingInput<R::Input>,
        /// Standard output.
        output: R,
        /// How often a call has failed.
        faults: u64,
    },
    /// A TCP connection (RFC 9293).
    Tcp {
        /// This end of it.
        link: TcpLink<R::Socket>,
        /// How often a call has failed.
        faults: u64,
    },
    /// A connection to the trial origin, which answers in this process.
    Echo {
        /// This end of it.
        link: EchoLink,
        /// How often a call has failed.
        faults: u64,
    },
}

impl<R: StandardStreams + Network> RealLink<R> {
    /// Whether one of its calls has failed.
    pub fn has_failed(&self) -> bool
        ensures { IsTrue result ↔ (0 < link_faults self.now) }
    {
        match self {
            RealLink::Streams { faults, .. } => *faults != 0,
            RealLink::Tcp { faults, .. } => *faults != 0,
            RealLink::Echo { faults, .. } => *faults != 0,
        }
    }

    /// Ends the connection of a client, so that what was written last arrives.
    pub(crate) fn end(&mut self) {
        match self {
            RealLink::Streams { .. } => {}
            RealLink::Tcp { link, .. } => link.end(),
            RealLink::Echo { .. } => {}
        }
    }
}

impl<R: StandardStreams + Print + Network> Link for RealLink<R> {
    ghost tells = { false };

    ghost traffic = { λ _. no_traffic [] 0 };

    ghost faults = { link_faults };

    fn read(&mut self, into: &mut [u8]) -> Result<usize, Failed> {
        match self {
            RealLink::Streams {
                input,
                output,
                faults,
            } => {
                let read = input.read_when_there(output, into);
                told(faults, output, "standard input", "read", read)
            }
            RealLink::Tcp { link, faults } => counted(faults, link.read(into)),
            RealLink::Echo { link, faults } => counted(faults, link.read(into)),
        }
    }

    fn write(&mut self, piece: &[u8]) -> Result<usize, Failed> {
        match self {
            RealLink::Streams { output, faults, .. } => {
                let written = print_when_taken(output, piece);
                told(faults, output, "standard output", "write", written)
            }
            RealLink::Tcp { link, faults } => counted(faults, link.write(piece)),
            RealLink::Echo { link, faults } => counted(faults, link.write(piece)),
        }
    }

    fn await_request(&mut self) {
        match self {
            RealLink::Streams { .. } => {}
            RealLink::Tcp { link, .. } => link.await_request(),
            RealLink::Echo { link, .. } => link.await_request(),
        }
    }
}
