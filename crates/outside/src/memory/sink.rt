//! A sink in memory.
ghost use Rattle.std.specs.Prelude.{◌≡◌, ◌<◌, ◌≤◌, ◌++◌, true, length, IsTrue, IsErr, IfOk, OnOk, OnErr};
ghost use Rattle.outside.specs.Calls.{is_listed, passed, failed};
ghost use Rattle.outside.specs.MemorySink.{new_sink};

use crate::Sink;
use crate::calls::Calls;
use capture::Failed;
use std::alloc::Global;
use std::marker::Model;

/// A sink that keeps what is written, in whole pieces, and fails at listed calls.
#[derive(Drop)]
pub struct MemorySink {
    written: Vec<u8>,
    calls: Calls,
}

impl Model for MemorySink {
    ghost use Rattle.outside.specs.MemorySink.{SinkInMemory};

    ghost Value = { SinkInMemory };

    ghost view = { λ sink. record { written = sink.written.items; calls = sink.calls } };
}

impl MemorySink {
    /// A sink with nothing written. The writes of these numbers fail, counted from 0.
    pub fn new(alloc: Global, fails: Vec<u64>) -> MemorySink
        ensures { result ≡ new_sink fails.items }
    {
        MemorySink {
            written: Vec::new(alloc),
            calls: Calls::new(fails),
        }
    }

    /// The bytes that were written.
    pub fn written(&self) -> &[u8]
        ensures { result.now ≡ self.now.written }
    {
        self.written.as_slice()
    }
}

impl Sink for MemorySink {
    ghost tells = { true };

    ghost written = { λ sink. sink.written };

    ghost faults = { λ sink. sink.calls.faults };

    fn write(&mut self, piece: &[u8]) -> Result<usize, Failed>
        requires { 0 < length piece.now }

        ensures listed { IsTrue (is_listed self.old.calls) → IsErr result }
        ensures amount { IfOk result (λ n. n ≡ length piece.now) }
        ensures after { OnOk result (self.new ≡ record self.old {
          written = self.old.written ++ piece.now;
          calls = passed self.old.calls;
        }) }
        ensures after_failed { OnErr result (self.new ≡ record self.old { calls = failed self.old.calls }) }
        ensures later { self.old.calls.faults ≤ self.new.calls.faults }
    {
        if self.calls.next_fails() {
            return Err(Failed);
        }
        if self.written.extend_from_slice(piece).is_err() {
            self.calls.count_fault();
            return Err(Failed);
        }
        Ok(piece.len())
    }
}
