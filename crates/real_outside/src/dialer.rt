//! The way to origins: TCP, or the trial origin in this process.
ghost use Rattle.std.specs.Prelude.{◌≡◌, IsAscii, IfOk};
ghost use Rattle.real_outside.specs.Dialers.{dialer_faults, CountsDialError};
ghost use Rattle.real_outside.specs.Links.{link_faults};
ghost use Rattle.outside.specs.Records.{nothing_out};

use crate::link::RealLink;
use crate::standard_streams::StandardStreams;
use outside::{DialError, Dialer, EchoDialer};
use std::alloc::Global;
use std::io;
use std::io::Print;
use system_network::Network;
use tcp_links::{TcpDialer, is_memory};

/// Makes connections to origins, with a count of faults.
#[derive(Drop)]
pub enum RealDialer<R> {
    /// To the trial origin, whatever the host.
    Echo {
        /// Where the connections get their memory.
        alloc: Global,
        /// How often a dial has failed or a link with a fault was hung up.
        faults: u64,
    },
    /// By TCP, to the host and port that are asked for.
    Tcp {
        /// How they are made.
        dialer: TcpDialer<R>,
        /// How often a dial has failed or a link with a fault was hung up.
        faults: u64,
    },
}

impl<R: StandardStreams + Print + Network + Drop> Dialer for RealDialer<R> {
    type Link = RealLink<R>;

    ghost links = { λ _. nothing_out };

    ghost faults = { dialer_faults };

    fn dial(&mut self, host: &str, port: u16) -> Result<RealLink<R>, DialError> {
        match self {
            RealDialer::Echo { alloc, faults } => match dial_echo(*alloc, host, port) {
                Ok(link) => Ok(link),
                Err(error) => Err(counted_dial(faults, error)),
            },
            RealDialer::Tcp { dialer, faults } => match dialer.dial(host, port) {
                Ok(link) => Ok(RealLink::Tcp { link, faults: 0 }),
                Err(error) => Err(counted_dial(faults, dial_error_of(&error))),
            },
        }
    }

    fn hang_up(&mut self, link: RealLink<R>) {
        if link.has_failed() {
            match self {
                RealDialer::Echo { faults, .. } => *faults = faults.saturating_add(1),
                RealDialer::Tcp { faults, .. } => *faults = faults.saturating_add(1),
            }
        }
    }
}

/// A connection to a trial origin of its own, so that nothing is kept of those that were hung up.
fn dial_echo<R: StandardStreams + Network + Drop>(
    alloc: Global,
    host: &str,
    port: u16,
) -> Result<RealLink<R>, DialError>
    requires { IsAscii host.now }
    ensures { IfOk result (λ link. link_faults link ≡ 0) }
{
    let mut origin = EchoDialer::new(alloc);
    let link = origin.dial(host, port)?;
    Ok(RealLink::Echo { link, faults: 0 })
}

/// What a dial answers for an error of the system.
fn dial_error_of(error: &io::Error) -> DialError {
    if is_memory(error) {
        DialError::Memory
    } else {
        DialError::Failed
    }
}

/// Counts a dial that failed. Want of memory is no fault.
fn counted_dial(faults: &mut u64, error: DialError) -> DialError
    ensures same { result ≡ error }
    ensures counts { CountsDialError faults.old faults.new error }
{
    if error == DialError::Failed {
        *faults = faults.saturating_add(1);
    }
    error
}
