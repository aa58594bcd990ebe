//! The bytes that a link gave and nobody has used yet.
ghost use Rattle.std.specs.Prelude.{◌≡◌, ◌<◌, ◌≤◌, ◌↔◌, [], ◌++◌, not, drop, length, IsTrue, IfOk, OnErr};
ghost use Rattle.capture.specs.Faults.{CountsFaults};

use capture::{Failed, Memory};
use outside::Link;
use std::alloc::Global;
use std::marker::Model;

/// How many bytes a window holds at most. A connection has two, the client's and that of its origins: 64 KiB in all.
const WINDOW_LEN: usize = 32_768;

/// A buffer between a link and what reads it, which serves one message after the other. A contract sees the bytes that
/// nobody has used yet.
#[derive(Drop)]
pub struct Window {
    buffer: Vec<u8>,
    at: usize,
    end: usize,
}

impl Model for Window {
    ghost use Rattle.std.specs.Prelude.{ℕ, List, ◌<◌, ◌≤◌, slice_range, vec_len};

    ghost Value = { List ℕ };

    ghost view = { λ w. slice_range w.buffer.items w.at w.end };

    ghost invariant = { λ w. (w.at ≤ w.end) × (w.end ≤ vec_len w.buffer) × (0 < vec_len w.buffer) };
}

impl Window {
    /// A window on nothing.
    pub fn new(alloc: Global) -> Result<Window, Memory>
        ensures { IfOk result (λ w. w ≡ []) }
    {
        Ok(Window {
            buffer: vec![in alloc; 0u8; WINDOW_LEN]?,
            at: 0,
            end: 0,
        })
    }

    /// The bytes in place.
    pub fn as_slice(&self) -> &[u8]
        ensures { result.now ≡ self.now }
    {
        &self.buffer.as_slice()[self.at..self.end]
    }

    /// Whether there is none.
    pub fn is_empty(&self) -> bool
        ensures { IsTrue result ↔ (self.now ≡ []) }
    {
        self.at == self.end
    }

    /// Leaves the first n bytes behind.
    pub fn advance(&mut self, n: usize)
        requires { n ≤ length self.old }
        ensures { self.new ≡ drop n self.old }
    {
        self.at += n;
    }

    /// Leaves all bytes behind.
    pub fn clear(&mut self)
        ensures { self.new ≡ [] }
    {
        self.at = 0;
        self.end = 0;
    }

    /// Takes the next bytes that the link gives, and says whether there are some: there is none at the link's
    /// end alone. A fault leaves the window empty.
    pub fn refill<L: Link>(&mut self, link: &mut L) -> Result<bool, Failed>
        requires { self.old ≡ [] }

        ensures some { IfOk result (λ more. IsTrue more ↔ (0 < length self.new)) }
        ensures none { OnErr result (self.new ≡ []) }
        ensures gives { IsTrue L.tells → IfOk result (λ more. L.traffic link.new ≡ record (L.traffic link.old) {
          given = (L.traffic link.old).given ++ self.new;
          ended = not more;
        }) }
        ensures gives_nothing { IsTrue L.tells → OnErr result (L.traffic link.new ≡ L.traffic link.old) }
        ensures counts { CountsFaults (L.faults link.old) (L.faults link.new) result }
    {
        self.at = 0;
        self.end = 0;
        let n = link.read(self.buffer.as_mut_slice())?;
        self.end = n;
        Ok(n > 0)
    }
}
