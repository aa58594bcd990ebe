//! A connection: bytes come from its other end and go to it.
ghost use Rattle.std.specs.Prelude.{◌≡◌, ◌==◌, ◌<◌, ◌≤◌, ◌++◌, ℕ, Bool, length, take, IsTrue, IfOk, OnErr};
ghost use Rattle.capture.specs.Faults.{CountsFaults};
ghost use Rattle.outside.specs.Calls.{one_more};
ghost use Rattle.outside.specs.Link.{Traffic};

use capture::Failed;

/// One end of a connection. It gives the bytes that come in, and takes the bytes that go out.
///
/// What it gives and takes is said only where its type tells it; all else is said of every link.
pub trait Link {
    /// Whether links of this type tell what goes over them.
    ghost tells: { Bool };

    /// The bytes given so far and whether the end of the input was met (a read answered 0), the bytes taken so
    /// far and how many writes failed, and the host and port at the other end, where this side dialled it.
    ghost traffic: { Self → Traffic };

    /// How often a call on this link has failed.
    ghost faults: { Self → ℕ };

    /// Gives the next bytes at the front of `into`, and answers how many. It answers 0 only at the end of
    /// the input, and then always. What it leaves in the rest of `into` isn't said.
    ///
    /// A read that fails gives nothing, and the end isn't met by it; what it leaves in `into` isn't said.
    fn read(&mut self, into: &mut [u8]) -> Result<usize, Failed>
        requires { 0 < length into.old }

        ensures fits { IfOk result (λ n. n ≤ length into.old) }
        ensures gives { IsTrue tells → IfOk result (λ n. traffic self.new ≡ record (traffic self.old) {
          given = (traffic self.old).given ++ take n into.new;
          ended = n == 0;
        }) }
        ensures stays_ended { IsTrue tells → IsTrue (traffic self.old).ended → IfOk result (λ n. n ≡ 0) }

        ensures gives_nothing { IsTrue tells → OnErr result (traffic self.new ≡ traffic self.old) }
        ensures counts { CountsFaults (faults self.old) (faults self.new) result };

    /// Takes one byte of `piece` or more, from its front, and answers how many. A write that fails takes
    /// nothing.
    fn write(&mut self, piece: &[u8]) -> Result<usize, Failed>
        requires { 0 < length piece.now }

        ensures some { IfOk result (λ n. 0 < n) }
        ensures fits { IfOk result (λ n. n ≤ length piece.now) }
        ensures takes { IsTrue tells → IfOk result (λ n. traffic self.new ≡ record (traffic self.old) {
          taken = (traffic self.old).taken ++ take n piece.now;
        }) }

        ensures takes_nothing { IsTrue tells → OnErr result (traffic self.new ≡ record (traffic self.old) {
          failed_writes = one_more (traffic self.old).failed_writes;
        }) }
        ensures counts { CountsFaults (faults self.old) (faults self.new) result };

    /// Says that nothing but a next request is awaited from now on, until a byte of it has come: a link may choose its
    /// limits of time by it. It gives and takes nothing.
    fn await_request(&mut self)
        ensures same_traffic { IsTrue tells → traffic self.new ≡ traffic self.old }
        ensures same_faults { faults self.new ≡ faults self.old };
}
