//! Where a program prints.
ghost use Rattle.std.specs.Prelude.{◌≡◌, ◌<◌, ◌≤◌, ◌++◌, List, ℕ, Bool, length, take, IsTrue, IfOk, OnErr};
ghost use Rattle.capture.specs.Faults.{CountsFaults};

use capture::Failed;

/// Bytes go out to it, and none come back. What was written is said only where its type tells it.
pub trait Sink {
    /// Whether sinks of this type tell what was written.
    ghost tells: { Bool };

    /// The bytes written so far.
    ghost written: { Self → List ℕ };

    /// How often a call on this sink has failed.
    ghost faults: { Self → ℕ };

    /// Writes one byte of `piece` or more, from its front, and answers how many. A write that fails writes
    /// nothing.
    fn write(&mut self, piece: &[u8]) -> Result<usize, Failed>
        requires { 0 < length piece.now }

        ensures some { IfOk result (λ n. 0 < n) }
        ensures fits { IfOk result (λ n. n ≤ length piece.now) }
        ensures writes { IsTrue tells → IfOk result (λ n. written self.new ≡ written self.old ++ take n piece.now) }

        ensures writes_nothing { IsTrue tells → OnErr result (written self.new ≡ written self.old) }
        ensures counts { CountsFaults (faults self.old) (faults self.new) result };
}
