//! A dialer in memory.
ghost use Rattle.std.specs.Prelude.{◌≡◌, ◌↔◌, ◌<◌, ◌≤◌, ◌+◌, IsTrue, IsAscii, IfOk, OnOk, All, drop};
ghost use Rattle.outside.specs.Calls.{is_listed, passed, failed};
ghost use Rattle.outside.specs.MemoryLink.{IsNew, towards};
ghost use Rattle.outside.specs.MemoryDialer.{new_dialer, next_link, after_dial, after_hang_up};

use crate::calls::Calls;
use crate::records::Records;
use crate::{DialError, Dialer, MemoryLink, Transcript};
use capture::Text;
use std::alloc::Global;
use std::marker::Model;
use std::vec::IntoIter;

/// A dialer that gives out links in order, whatever the host, and then links without input. It fails at
/// listed dials.
#[derive(Drop)]
pub struct MemoryDialer {
    alloc: Global,
    links: IntoIter<MemoryLink>,
    transcripts: Records<Transcript>,
    calls: Calls,
}

impl Model for MemoryDialer {
    ghost use Rattle.std.specs.Prelude.{All};
    ghost use Rattle.std.specs.Vec.Iter.{into_iter_items};
    ghost use Rattle.outside.specs.MemoryDialer.{DialerInMemory};
    ghost use Rattle.outside.specs.MemoryLink.{IsNew};

    ghost Value = { DialerInMemory };

    ghost view = { λ dialer. record {
      left = into_iter_items dialer.links;
      links = dialer.transcripts;
      calls = dialer.calls;
    } };

    ghost invariant = { λ dialer. All IsNew (into_iter_items dialer.links) };
}

impl MemoryDialer {
    /// A dialer that has these links to give. The dials of these numbers fail, counted from 0.
    pub fn new(alloc: Global, links: Vec<MemoryLink>, fails: Vec<u64>) -> MemoryDialer
        requires { All IsNew links.items }
        ensures { result ≡ new_dialer links.items fails.items }
    {
        MemoryDialer {
            alloc,
            links: links.into_iter(),
            transcripts: Records::new(alloc),
            calls: Calls::new(fails),
        }
    }

    /// The transcripts of the links that were hung up, in that order.
    pub fn transcripts(&self) -> &[Transcript]
        ensures { result.now ≡ self.now.links.log }
    {
        self.transcripts.as_slice()
    }
}

impl Dialer for MemoryDialer {
    type Link = MemoryLink;

    ghost links = { λ dialer. dialer.links };

    ghost faults = { λ dialer. dialer.calls.faults };

    fn dial(&mut self, host: &str, port: u16) -> Result<MemoryLink, DialError>
        requires { IsAscii host.now }

        ensures listed { (result ≡ Err DialError.Failed) ↔ IsTrue (is_listed self.old.calls) }
        ensures gives { IfOk result (λ link. link ≡ towards host.now port (next_link self.old.left)) }
        ensures as_new { IsNew (next_link self.old.left) }
        ensures after { self.new ≡ after_dial self.old result }
        ensures later { self.old.calls.faults ≤ self.new.calls.faults }
    {
        if self.calls.next_fails() {
            return Err(DialError::Failed);
        }
        let Ok(host) = Text::from_str(self.alloc, host) else {
            return Err(DialError::Memory);
        };
        if self.transcripts.send_out().is_err() {
            return Err(DialError::Memory);
        }
        let link = match self.links.next() {
            Some(link) => link,
            None => MemoryLink::new(self.alloc, Vec::new(self.alloc), Vec::new(self.alloc)),
        };
        Ok(link.towards(host, port))
    }

    fn hang_up(&mut self, link: MemoryLink)
        requires { 0 < self.old.links.out }

        ensures after { self.new ≡ after_hang_up self.old link }
        ensures later { self.old.calls.faults ≤ self.new.calls.faults }
    {
        if link.has_failed() {
            self.calls.count_fault();
        }
        self.transcripts.take_in(link.into_transcript());
    }
}
