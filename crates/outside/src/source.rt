//! Bytes that are given once.
ghost use Rattle.std.specs.Prelude.{◌≡◌, ◌==◌, ◌<◌, ◌++◌, length, take, drop, min, OnOk, OnErr, if◌then◌else◌};
ghost use Rattle.outside.specs.Source.{new_source};

use capture::{Bytes, Memory};
use std::marker::Model;

/// Gives its bytes once, in order, and then their end, which stays.
#[derive(Drop)]
pub(crate) struct Source {
    bytes: Vec<u8>,
    at: usize,
    ended: bool,
}

impl Model for Source {
    ghost use Rattle.std.specs.Prelude.{◌≤◌, length, take, drop};
    ghost use Rattle.outside.specs.Source.{SourceInMemory};

    ghost Value = { SourceInMemory };

    ghost view = { λ source. record {
      given = take source.at source.bytes.items;
      left = drop source.at source.bytes.items;
      ended = source.ended;
    } };

    ghost invariant = { λ source. source.at ≤ length source.bytes.items };
}

impl Source {
    /// These bytes, of which none is given yet. Takes no memory.
    pub(crate) fn new(bytes: Vec<u8>) -> Source
        ensures { result ≡ new_source bytes.items }
    {
        Source {
            bytes,
            at: 0,
            ended: false,
        }
    }

    /// Gives the next bytes at the front of `into`, at most so many, and answers how many. By 0 the end is
    /// met.
    pub(crate) fn give(&mut self, into: &mut [u8], most: usize) -> usize
        ensures amount { result ≡ (if self.old.ended then 0 else min (length self.old.left) (min (length into.old) most)) }
        ensures bytes { take result into.new ≡ take result self.old.left }
        ensures after { self.new ≡ record {
          given = self.old.given ++ take result self.old.left;
          left = drop result self.old.left;
          ended = result == 0;
        } }
    {
        let left = self.bytes.len() - self.at;
        let many = if self.ended {
            0
        } else {
            left.min(into.len().min(most))
        };
        into[..many].copy_from_slice(&self.bytes[self.at..self.at + many]);
        self.at += many;
        self.ended = many == 0;
        many
    }

    /// Puts more bytes behind those that are left.
    pub(crate) fn add(&mut self, more: &[u8]) -> Result<(), Memory>
        ensures ok { OnOk result (self.new ≡ record self.old { left = self.old.left ++ more.now }) }
        ensures err { OnErr result (self.new ≡ self.old) }
    {
        self.bytes.extend_from_slice(more)?;
        Ok(())
    }

    /// Whether the end was met.
    pub(crate) fn has_ended(&self) -> bool
        ensures { result ≡ self.now.ended }
    {
        self.ended
    }

    /// The bytes that were given. Takes no memory.
    pub(crate) fn into_given(self) -> Bytes
        ensures { result ≡ self.given }
    {
        let Source {
            mut bytes,
            at,
            ended: _,
        } = self;
        bytes.truncate(at);
        Bytes::of(bytes)
    }
}
