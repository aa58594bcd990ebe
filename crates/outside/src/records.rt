//! What an object in memory keeps of the connections that were hung up.
ghost use Rattle.std.specs.Prelude.{◌≡◌, ◌<◌, OnOk, OnErr};
ghost use Rattle.outside.specs.Records.{nothing_out, one_out, one_in};

use capture::Memory;
use std::alloc::Global;
use std::marker::Model;

/// A record of each connection that was hung up, and the room for one of each that is out. So hanging up
/// takes no memory.
#[derive(Drop)]
pub(crate) struct Records<T> {
    list: Vec<T>,
    out: usize,
}

impl<T> Model for Records<T> {
    ghost use Rattle.std.specs.Prelude.{◌+◌, ◌≤◌, vec_len, vec_capacity};
    ghost use Rattle.outside.specs.Records.{Links};

    ghost Value = { Links T };

    ghost view = { λ records. record { log = records.list.items; out = records.out } };

    ghost invariant = { λ records. vec_len records.list + records.out ≤ vec_capacity records.list };
}

impl<T> Records<T> {
    /// No record, and nothing is out. Takes no memory.
    pub(crate) fn new(alloc: Global) -> Records<T>
        ensures { result ≡ nothing_out }
    {
        Records {
            list: Vec::new(alloc),
            out: 0,
        }
    }

    /// Makes the room for one more, which is out from now on.
    pub(crate) fn send_out(&mut self) -> Result<(), Memory>
        ensures ok { OnOk result (self.new ≡ one_out self.old) }
        ensures err { OnErr result (self.new ≡ self.old) }
    {
        let Some(out) = self.out.checked_add(1) else {
            return Err(Memory);
        };
        self.list.reserve(out)?;
        self.out = out;
        Ok(())
    }

    /// Keeps the record of one that was out. Takes no memory.
    pub(crate) fn take_in(&mut self, entry: T)
        requires { 0 < self.old.out }
        ensures { self.new ≡ one_in self.old entry }
    {
        self.list.push_reserved(entry);
        self.out -= 1;
    }

    /// The records, in the order of hanging up.
    pub(crate) fn as_slice(&self) -> &[T]
        ensures { result.now ≡ self.now.log }
    {
        self.list.as_slice()
    }
}
