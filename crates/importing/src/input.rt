//! Reads what the gate's first connection gives, up to its end.
ghost use Rattle.std.specs.Prelude.{◌≡◌, ◌⊎◌, ◌<◌, ◌≤◌, length, IfErr, IfOk, IsErrOf, IsTrue};
ghost use Rattle.outside.specs.Gate.{Connections, heard_of, one_given, one_served};
ghost use Rattle.outside.specs.declared.gate.Heard.{Heard};
ghost use Rattle.outside.specs.Link.{IsFresh};
ghost use Rattle.command.specs.Gates.{gate_told};
ghost use Rattle.importing.specs.Inputs.{GivesInput, GivesNoInput, IsInput, IsNoInput, TakesPiece};
ghost use Rattle.importing.specs.declared.input.TheConstants.{INPUT_LIMIT as LIMIT};

use capture::{Failed, Memory, put_all};
use command::hang_up;
use exchange::Window;
use outside::{Accepted, Gate, Link};
use std::alloc::Global;

/// How long an input may be, in bytes.
pub const INPUT_LIMIT: usize = 268_435_456;

/// Why there is no input.
#[derive(Clone, Copy)]
pub enum InputFault {
    /// It went on past the limit.
    TooLong,
    /// The gate failed, or the connection.
    Failed,
    /// There was no memory.
    Memory,
}

/// What the gate's first connection gives, up to its end; nothing, where the gate is closed. Nothing is written to the connection, and
/// it is hung up.
pub fn read_first<G: Gate>(alloc: Global, gate: &mut G) -> Result<Vec<u8>, InputFault>
    ensures input { IsTrue G.Link.tells → IfOk result (λ input. GivesInput (gate_told G.Gate gate.old) (gate_told G.Gate gate.new) input.items) }
    ensures none { IsTrue G.Link.tells → IfErr result (GivesNoInput (gate_told G.Gate gate.old) (gate_told G.Gate gate.new)) }
    ensures within { IfOk result (λ input. length input.items ≤ LIMIT) }
    ensures gate_failed { IsErrOf result InputFault.Failed ⊎ (G.faults gate.new ≡ G.faults gate.old) }
{
    match gate.accept() {
        Accepted::Connection(link) => read_connection(alloc, gate, link),
        Accepted::Closed => Ok(Vec::new(alloc)),
        Accepted::Failed => Err(InputFault::Failed),
        Accepted::Memory => Err(InputFault::Memory),
    }
}

/// What a fresh connection gives, which the gate gave last. It is hung up.
fn read_connection<G: Gate>(
    alloc: Global,
    gate: &mut G,
    link: G::Link,
) -> Result<Vec<u8>, InputFault>
    requires out { IsTrue G.Link.tells → 0 < (G.connections gate.old).out }
    requires no_fault { G.Link.faults link ≡ 0 }
    requires fresh { IsTrue G.Link.tells → IsFresh (G.Link.traffic link) }
    ensures input { IsTrue G.Link.tells → IfOk result (λ input. (before : Connections) → G.connections gate.old ≡ one_given before
        → (heard : Heard) × (G.connections gate.new ≡ one_served before heard) × IsInput heard input.items) }
    ensures none { IsTrue G.Link.tells → IfErr result (λ fault. (before : Connections) → G.connections gate.old ≡ one_given before
        → (heard : Heard) × (G.connections gate.new ≡ one_served before heard) × IsNoInput heard fault) }
    ensures within { IfOk result (λ input. length input.items ≤ LIMIT) }
    ensures same_faults { G.faults gate.new ≡ G.faults gate.old }
{
    let mut link = link;
    let read = read_to_end(alloc, &mut link);
    hang_up(gate, link);
    read
}

/// What a fresh link gives, up to its end.
fn read_to_end<L: Link>(alloc: Global, link: &mut L) -> Result<Vec<u8>, InputFault>
    requires no_fault { L.faults link.old ≡ 0 }
    requires fresh { IsTrue L.tells → IsFresh (L.traffic link.old) }
    ensures input { IsTrue L.tells → IfOk result (λ input. IsInput (heard_of (L.traffic link.new) (L.faults link.new)) input.items) }
    ensures none { IsTrue L.tells → IfErr result (IsNoInput (heard_of (L.traffic link.new) (L.faults link.new))) }
    ensures within { IfOk result (λ input. length input.items ≤ LIMIT) }
{
    let mut input = Vec::new(alloc);
    let mut window = match Window::new(alloc) {
        Ok(window) => window,
        Err(Memory) => return Err(InputFault::Memory),
    };
    'reading: loop {
        match window.refill(link) {
            Ok(true) => {}
            Ok(false) => return Ok(input),
            Err(Failed) => return Err(InputFault::Failed),
        }
        match take_piece(&mut input, window.as_slice()) {
            Ok(()) => {}
            Err(fault) => return Err(fault),
        }
        window.clear();
    }
}

/// Puts a piece behind what was read, within the limit.
fn take_piece(input: &mut Vec<u8>, piece: &[u8]) -> Result<(), InputFault>
    requires { length input.old.items ≤ LIMIT }
    ensures { TakesPiece input.old.items piece.now input.new.items result }
{
    if piece.len() > INPUT_LIMIT - input.len() {
        return Err(InputFault::TooLong);
    }
    match put_all(input, piece) {
        Ok(()) => Ok(()),
        Err(Memory) => Err(InputFault::Memory),
    }
}
