//! A gate in memory.
ghost use Rattle.std.specs.Prelude.{◌≡◌, ◌↔◌, ◌==◌, ◌+◌, ◌^◌, ◌<◌, ◌≤◌, [], length, IsTrue, All};
ghost use Rattle.outside.specs.Calls.{is_listed};
ghost use Rattle.outside.specs.Gate.{IfConnection, one_hung_up, heard_of};
ghost use Rattle.outside.specs.MemoryLink.{IsNew};
ghost use Rattle.outside.specs.MemoryGate.{new_gate, Gives, gate_after};

use crate::calls::Calls;
use crate::records::Records;
use crate::{Accepted, Gate, Heard, MemoryLink};
use std::alloc::Global;
use std::marker::Model;
use std::vec::IntoIter;

/// A gate that gives connections in order and then is closed. It fails at listed accepts.
#[derive(Drop)]
pub struct MemoryGate {
    links: IntoIter<MemoryLink>,
    gave: usize,
    heard: Records<Heard>,
    calls: Calls,
}

impl Model for MemoryGate {
    ghost use Rattle.std.specs.Prelude.{All, ◌+◌, ◌^◌, ◌<◌, length};
    ghost use Rattle.std.specs.Vec.Iter.{into_iter_items};
    ghost use Rattle.outside.specs.MemoryGate.{GateInMemory};
    ghost use Rattle.outside.specs.MemoryLink.{IsNew};

    ghost Value = { GateInMemory };

    ghost view = { λ gate. record {
      left = into_iter_items gate.links;
      connections = record { log = gate.heard.log; out = gate.heard.out; gave = gate.gave };
      calls = gate.calls;
    } };

    ghost invariant = { λ gate.
        All IsNew (into_iter_items gate.links) × (gate.gave + length (into_iter_items gate.links) < 2 ^ 64) };
}

impl MemoryGate {
    /// A gate that has these connections to give. The accepts of these numbers fail, counted from 0.
    pub fn new(alloc: Global, links: Vec<MemoryLink>, fails: Vec<u64>) -> MemoryGate
        requires { All IsNew links.items }
        ensures { result ≡ new_gate links.items fails.items }
    {
        MemoryGate {
            links: links.into_iter(),
            gave: 0,
            heard: Records::new(alloc),
            calls: Calls::new(fails),
        }
    }

    /// What was heard on the connections that were hung up, in that order.
    pub fn heard(&self) -> &[Heard]
        ensures { result.now ≡ self.now.connections.log }
    {
        self.heard.as_slice()
    }
}

impl Gate for MemoryGate {
    type Link = MemoryLink;

    type Past = Heard;

    ghost connections = { λ gate. gate.connections };

    ghost closed = { λ gate. length gate.left == 0 };

    ghost faults = { λ gate. gate.calls.faults };

    ghost kept = { λ past. past };

    fn accept(&mut self) -> Accepted<MemoryLink>
        ensures listed { (result ≡ Accepted.Failed) ↔ IsTrue (is_listed self.old.calls) }
        ensures gives { Gives self.old.left result self.new.left }
        ensures as_new { IfConnection result IsNew }
        ensures after { self.new ≡ gate_after self.old result self.new.left }
        ensures later { self.old.calls.faults ≤ self.new.calls.faults }
    {
        if self.calls.next_fails() {
            return Accepted::Failed;
        }
        if self.links.len() == 0 {
            return Accepted::Closed;
        }
        if self.heard.send_out().is_err() {
            return Accepted::Memory;
        }
        let Some(link) = self.links.next() else {
            unreachable!()
        };
        self.gave += 1;
        Accepted::Connection(link)
    }

    fn end(link: MemoryLink) -> Heard
        ensures { result ≡ heard_of link.traffic link.calls.faults }
    {
        link.into_heard()
    }

    fn hang_up(&mut self, past: Heard)
        requires { 0 < self.old.connections.out }
        ensures { self.new ≡ record self.old { connections = one_hung_up self.old.connections past } }
    {
        self.heard.take_in(past);
    }
}
