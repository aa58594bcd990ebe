//! A link to the trial origin.
ghost use Rattle.std.specs.Prelude.{◌≡◌, ◌==◌, ◌↔◌, ◌&&◌, ◌<◌, ◌≤◌, ◌++◌, ◌∷◌, [], true, length, take, drop, IsTrue, IfOk, OnOk, OnErr};
ghost use Rattle.outside.specs.Calls.{one_more};
ghost use Rattle.outside.specs.Echo.{ends_head};
ghost use Rattle.outside.specs.Dialer.{transcript_of};
ghost use Rattle.outside.specs.EchoLink.{new_echo, Echoes, readable};

use crate::echo::answer_to;
use crate::source::Source;
use crate::{Link, Transcript};
use capture::{Bytes, Failed, Memory, Text};
use std::alloc::Global;
use std::marker::Model;

/// A link that gives the answers to the heads that it took. A read that finds no answer meets the end, which
/// stays. A write fails only where there is no memory for its first byte.
#[derive(Drop)]
pub struct EchoLink {
    alloc: Global,
    taken: Vec<u8>,
    // Where in `taken` the head begins that isn't whole yet.
    place: usize,
    answers: Source,
    host: Text,
    port: u16,
    // How often a write has failed.
    faults: u64,
}

impl Model for EchoLink {
    ghost use Rattle.outside.specs.EchoLink.{LinkToEcho, IsEcho};

    ghost Value = { LinkToEcho };

    ghost view = { λ link. record {
      traffic = record {
        given = link.answers.given;
        ended = link.answers.ended;
        taken = link.taken.items;
        failed_writes = link.faults;
        host = link.host;
        port = link.port;
      };
      left = link.answers.left;
      faults = link.faults;
    } };

    ghost invariant = { λ link. IsEcho link.taken.items link.answers.given link.answers.left link.place };
}

impl EchoLink {
    /// A new link to this host and port. Takes no memory.
    pub(crate) fn new(alloc: Global, host: Text, port: u16) -> EchoLink
        ensures { result ≡ new_echo host port }
    {
        EchoLink {
            alloc,
            taken: Vec::new(alloc),
            place: 0,
            answers: Source::new(Vec::new(alloc)),
            host,
            port,
            faults: 0,
        }
    }

    /// Whether one of its calls has failed.
    pub(crate) fn has_failed(&self) -> bool
        ensures { IsTrue result ↔ (0 < self.now.faults) }
    {
        self.faults != 0
    }

    /// What went over it. Takes no memory.
    pub(crate) fn into_transcript(self) -> Transcript
        ensures { result ≡ transcript_of self.traffic self.faults }
    {
        let EchoLink {
            alloc: _,
            taken,
            place: _,
            answers,
            host,
            port,
            faults,
        } = self;
        let ended = answers.has_ended();
        Transcript {
            host,
            port,
            sent: Bytes::of(taken),
            given: answers.into_given(),
            ended,
            faults,
        }
    }

    /// Takes one byte, and answers the head that is whole with it.
    fn take_byte(&mut self, byte: u8) -> Result<(), Memory>
        ensures ok { OnOk result (self.new ≡ record self.old {
          traffic = record self.old.traffic { taken = self.old.traffic.taken ++ byte ∷ [] };
          left = self.new.left;
        }) }
        ensures err { OnErr result (self.new ≡ self.old) }
        ensures echoes { Echoes self.new }
    {
        self.taken.reserve(1)?;
        let begun = self.taken.as_slice().split_at(self.place).1;
        if is_whole(begun, byte) {
            let answer = answer_to(self.alloc, begun)?;
            self.answers.add(answer.as_slice())?;
            self.taken.push_reserved(byte);
            self.place = self.taken.len();
        } else {
            self.taken.push_reserved(byte);
        }
        Ok(())
    }
}

/// Whether a head that has begun is whole with this byte.
fn is_whole(begun: &[u8], byte: u8) -> bool
    ensures { result ≡ ends_head begun.now byte }
{
    byte == b'\n' && begun.ends_with(b"\r\n\r")
}

impl Link for EchoLink {
    ghost tells = { true };

    ghost traffic = { λ link. link.traffic };

    ghost faults = { λ link. link.faults };

    fn read(&mut self, into: &mut [u8]) -> Result<usize, Failed>
        requires { 0 < length into.old }

        ensures amount { result ≡ Ok (readable self.old (length into.old)) }
        ensures bytes { IfOk result (λ n. take n into.new ≡ take n self.old.left) }
        ensures after { IfOk result (λ n. self.new ≡ record self.old {
          traffic = record self.old.traffic {
            given = self.old.traffic.given ++ take n self.old.left;
            ended = n == 0;
          };
          left = drop n self.old.left;
        }) }
        ensures echoes { Echoes self.new }
    {
        Ok(self.answers.give(into, usize::MAX))
    }

    fn write(&mut self, piece: &[u8]) -> Result<usize, Failed>
        requires { 0 < length piece.now }

        ensures some { IfOk result (λ n. 0 < n) }
        ensures fits { IfOk result (λ n. n ≤ length piece.now) }
        ensures after { IfOk result (λ n. self.new ≡ record self.old {
          traffic = record self.old.traffic { taken = self.old.traffic.taken ++ take n piece.now };
          left = self.new.left;
        }) }
        ensures after_failed { OnErr result (self.new ≡ record self.old {
          traffic = record self.old.traffic { failed_writes = one_more self.old.traffic.failed_writes };
          faults = one_more self.old.faults;
        }) }
        ensures echoes { Echoes self.new }
        ensures later { self.old.faults ≤ self.new.faults }
    {
        if self.take_byte(piece[0]).is_err() {
            self.faults = self.faults.saturating_add(1);
            return Err(Failed);
        }
        'taking: for n in 1..piece.len() {
            if self.take_byte(piece[n]).is_err() {
                return Ok(n);
            }
        }
        Ok(piece.len())
    }

    fn await_request(&mut self)
        ensures { self.new ≡ self.old }
    {}
}
