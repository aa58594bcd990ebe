//! A link in memory: it gives a list of bytes and keeps what it takes.
ghost use Rattle.std.specs.Prelude.{◌≡◌, ◌==◌, ◌↔◌, ◌<◌, ◌≤◌, ◌++◌, [], true, length, take, drop, min, IsTrue, IsErr, IfOk, OnOk, OnErr};
ghost use Rattle.outside.specs.Calls.{is_listed, one_more, passed, failed};
ghost use Rattle.outside.specs.Dialer.{transcript_of};
ghost use Rattle.outside.specs.Gate.{heard_of};
ghost use Rattle.outside.specs.MemoryLink.{new_link, towards};

use crate::calls::Calls;
use crate::source::Source;
use crate::{Heard, Link, Transcript};
use capture::{Bytes, Failed, Text};
use std::alloc::Global;
use std::marker::Model;

/// A link that gives its input and then its end, takes all that is written, and fails at listed calls.
/// Reads and writes are numbered together, from 0.
#[derive(Drop)]
pub struct MemoryLink {
    input: Source,
    taken: Vec<u8>,
    host: Text,
    port: u16,
    // The most bytes that one call gives or takes.
    most: usize,
    calls: Calls,
    // How many of the calls that failed were writes.
    failed_writes: u64,
}

impl Model for MemoryLink {
    ghost use Rattle.std.specs.Prelude.{◌≡◌, ◌<◌, IsTrue, length};
    ghost use Rattle.outside.specs.MemoryLink.{LinkInMemory};

    ghost Value = { LinkInMemory };

    ghost view = { λ link. record {
      traffic = record {
        given = link.input.given;
        ended = link.input.ended;
        taken = link.taken.items;
        failed_writes = link.failed_writes;
        host = link.host;
        port = link.port;
      };
      left = link.input.left;
      most = link.most;
      calls = link.calls;
    } };

    ghost invariant = { λ link. (0 < link.most) × (IsTrue link.input.ended → length link.input.left ≡ 0) };
}

impl MemoryLink {
    /// A link that gives this input, as much at a time as is asked for, and takes whole pieces. The calls of
    /// these numbers fail.
    pub fn new(alloc: Global, input: Vec<u8>, fails: Vec<u64>) -> MemoryLink
        ensures { result ≡ new_link input.items usize.MAX fails.items }
    {
        MemoryLink::in_pieces(alloc, input, usize::MAX, fails)
    }

    /// The same, but one call gives or takes at most so many bytes.
    pub fn in_pieces(alloc: Global, input: Vec<u8>, most: usize, fails: Vec<u64>) -> MemoryLink
        requires { 0 < most }
        ensures { result ≡ new_link input.items most fails.items }
    {
        MemoryLink {
            input: Source::new(input),
            taken: Vec::new(alloc),
            host: Text::empty(alloc),
            port: 0,
            most,
            calls: Calls::new(fails),
            failed_writes: 0,
        }
    }

    /// The same link, said to lead to this host and port.
    pub(crate) fn towards(mut self, host: Text, port: u16) -> MemoryLink
        ensures { result ≡ towards host port self }
    {
        self.host = host;
        self.port = port;
        self
    }

    /// Whether one of its calls has failed.
    pub(crate) fn has_failed(&self) -> bool
        ensures { IsTrue result ↔ (0 < self.now.calls.faults) }
    {
        self.calls.has_failed()
    }

    /// What went over it. Takes no memory.
    pub(crate) fn into_transcript(self) -> Transcript
        ensures { result ≡ transcript_of self.traffic self.calls.faults }
    {
        let MemoryLink {
            input,
            taken,
            host,
            port,
            most: _,
            calls,
            failed_writes: _,
        } = self;
        let ended = input.has_ended();
        Transcript {
            host,
            port,
            sent: Bytes::of(taken),
            given: input.into_given(),
            ended,
            faults: calls.faults(),
        }
    }

    /// What was heard on it. Takes no memory.
    pub(crate) fn into_heard(self) -> Heard
        ensures { result ≡ heard_of self.traffic self.calls.faults }
    {
        let MemoryLink {
            input,
            taken,
            host: _,
            port: _,
            most: _,
            calls,
            failed_writes,
        } = self;
        let ended = input.has_ended();
        Heard {
            given: input.into_given(),
            ended,
            written: Bytes::of(taken),
            faults: calls.faults(),
            failed_writes,
        }
    }

    /// Takes as many bytes of a piece as one call takes.
    fn take(&mut self, piece: &[u8]) -> Result<usize, Failed>
        ensures listed { IsTrue (is_listed self.old.calls) → IsErr result }
        ensures amount { IfOk result (λ n. n ≡ min (length piece.now) self.old.most) }
        ensures after { IfOk result (λ n. self.new ≡ record self.old {
          traffic = record self.old.traffic { taken = self.old.traffic.taken ++ take n piece.now };
          calls = passed self.old.calls;
        }) }
        ensures after_failed { OnErr result (self.new ≡ record self.old { calls = failed self.old.calls }) }
        ensures later { self.old.calls.faults ≤ self.new.calls.faults }
    {
        if self.calls.next_fails() {
            return Err(Failed);
        }
        let n = piece.len().min(self.most);
        if self.taken.extend_from_slice(&piece[..n]).is_err() {
            self.calls.count_fault();
            return Err(Failed);
        }
        Ok(n)
    }

    /// The bytes that it took.
    pub fn written(&self) -> &[u8]
        ensures { result.now ≡ self.now.traffic.taken }
    {
        self.taken.as_slice()
    }
}

impl Link for MemoryLink {
    ghost tells = { true };

    ghost traffic = { λ link. link.traffic };

    ghost faults = { λ link. link.calls.faults };

    fn read(&mut self, into: &mut [u8]) -> Result<usize, Failed>
        requires { 0 < length into.old }

        ensures listed { IsErr result ↔ IsTrue (is_listed self.old.calls) }
        ensures amount { IfOk result (λ n. n ≡ min (length self.old.left) (min (length into.old) self.old.most)) }
        ensures only_at_end { IfOk result (λ n. n ≡ 0 → self.old.left ≡ []) }
        ensures stays_ended { IsTrue self.old.traffic.ended → IfOk result (λ n. n ≡ 0) }
        ensures bytes { IfOk result (λ n. take n into.new ≡ take n self.old.left) }
        ensures after { IfOk result (λ n. self.new ≡ record self.old {
          traffic = record self.old.traffic {
            given = self.old.traffic.given ++ take n self.old.left;
            ended = n == 0;
          };
          left = drop n self.old.left;
          calls = passed self.old.calls;
        }) }
        ensures after_failed { OnErr result (self.new ≡ record self.old { calls = failed self.old.calls }) }
        ensures later { self.old.calls.faults ≤ self.new.calls.faults }
    {
        if self.calls.next_fails() {
            return Err(Failed);
        }
        Ok(self.input.give(into, self.most))
    }

    fn write(&mut self, piece: &[u8]) -> Result<usize, Failed>
        requires { 0 < length piece.now }

        ensures listed { IsTrue (is_listed self.old.calls) → IsErr result }
        ensures amount { IfOk result (λ n. n ≡ min (length piece.now) self.old.most) }
        ensures some { IfOk result (λ n. 0 < n) }
        ensures after { IfOk result (λ n. self.new ≡ record self.old {
          traffic = record self.old.traffic { taken = self.old.traffic.taken ++ take n piece.now };
          calls = passed self.old.calls;
        }) }
        ensures after_failed { OnErr result (self.new ≡ record self.old {
          traffic = record self.old.traffic { failed_writes = one_more self.old.traffic.failed_writes };
          calls = failed self.old.calls;
        }) }
        ensures later { self.old.calls.faults ≤ self.new.calls.faults }
    {
        match self.take(piece) {
            Ok(n) => Ok(n),
            Err(Failed) => {
                self.failed_writes = self.failed_writes.saturating_add(1);
                Err(Failed)
            }
        }
    }

    fn await_request(&mut self)
        ensures { self.new ≡ self.old }
    {}
}
