//! The trial origin.
ghost use Rattle.std.specs.Prelude.{◌≡◌, ◌<◌, ◌≤◌, IsAscii, IfOk, IfErr, OnOk, OnErr};
ghost use Rattle.outside.specs.EchoDialer.{new_dialer, after_hang_up};
ghost use Rattle.outside.specs.EchoLink.{new_echo};
ghost use Rattle.outside.specs.Records.{one_out};

use crate::echo_link::EchoLink;
use crate::records::Records;
use crate::{DialError, Dialer, Transcript};
use capture::Text;
use std::alloc::Global;
use std::marker::Model;

/// A dialer whose links all lead to one origin, which answers each request's head with the head's target.
/// A dial never fails but for memory.
#[derive(Drop)]
pub struct EchoDialer {
    alloc: Global,
    transcripts: Records<Transcript>,
    faults: u64,
}

impl Model for EchoDialer {
    ghost use Rattle.outside.specs.EchoDialer.{DialerToEcho};

    ghost Value = { DialerToEcho };

    ghost view = { λ dialer. record { links = dialer.transcripts; faults = dialer.faults } };
}

impl EchoDialer {
    /// A dialer that wasn't used yet. Takes no memory.
    pub fn new(alloc: Global) -> EchoDialer
        ensures { result ≡ new_dialer }
    {
        EchoDialer {
            alloc,
            transcripts: Records::new(alloc),
            faults: 0,
        }
    }

    /// The transcripts of the links that were hung up, in that order.
    pub fn transcripts(&self) -> &[Transcript]
        ensures { result.now ≡ self.now.links.log }
    {
        self.transcripts.as_slice()
    }
}

impl Dialer for EchoDialer {
    type Link = EchoLink;

    ghost links = { λ dialer. dialer.links };

    ghost faults = { λ dialer. dialer.faults };

    fn dial(&mut self, host: &str, port: u16) -> Result<EchoLink, DialError>
        requires { IsAscii host.now }

        ensures gives { IfOk result (λ link. link ≡ new_echo host.now port) }
        ensures after { OnOk result (self.new ≡ record self.old { links = one_out self.old.links }) }
        ensures only_for_memory { IfErr result (λ error. error ≡ DialError.Memory) }
        ensures after_memory { OnErr result (self.new ≡ self.old) }
    {
        let Ok(host) = Text::from_str(self.alloc, host) else {
            return Err(DialError::Memory);
        };
        if self.transcripts.send_out().is_err() {
            return Err(DialError::Memory);
        }
        Ok(EchoLink::new(self.alloc, host, port))
    }

    fn hang_up(&mut self, link: EchoLink)
        requires { 0 < self.old.links.out }

        ensures after { self.new ≡ after_hang_up self.old link }
        ensures later { self.old.faults ≤ self.new.faults }
    {
        if link.has_failed() {
            self.faults = self.faults.saturating_add(1);
        }
        self.transcripts.take_in(link.into_transcript());
    }
}
