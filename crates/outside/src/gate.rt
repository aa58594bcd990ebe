//! The way in: a gate gives connections of clients, and keeps what was heard on each that was hung up.
ghost use Rattle.std.specs.Prelude.{◌≡◌, ◌<◌, ℕ, Bool, true, false, IsTrue};
ghost use Rattle.outside.specs.declared.gate.Heard.{Heard};
ghost use Rattle.outside.specs.Link.{IsFresh};
ghost use Rattle.outside.specs.Gate.{IfConnection, OnClosed, Connections, after_accept, one_hung_up, heard_of, CountsAccept};

use crate::Link;
use capture::Bytes;

/// What a gate answers.
#[derive(Drop)]
pub enum Accepted<L> {
    /// A connection came.
    Connection(L),
    /// No connection comes any more.
    Closed,
    /// The gate failed: its count of faults rose.
    Failed,
    /// There was no memory.
    Memory,
}

/// What went over one connection.
#[derive(Drop)]
pub struct Heard {
    /// The bytes that the client gave.
    pub given: Bytes,
    /// Whether the end of what it gave was met.
    pub ended: bool,
    /// The bytes that were written to it.
    pub written: Bytes,
    /// How often its link failed.
    pub faults: u64,
    /// How many of these were writes.
    pub failed_writes: u64,
}

/// Gives connections. Whether it tells what became of them is said by the type of its links.
///
/// To hang a connection up is to call `end` on its link and then `hang_up` on what that keeps.
pub trait Gate {
    /// The connections that it gives.
    type Link: Link + Drop;

    /// What is kept of a connection that has ended.
    type Past: Drop;

    /// What was heard on the connections that were hung up, in that order, how many are out (given and not hung
    /// up), and how many it has given.
    ghost connections: { Self → Connections };

    /// Whether it gives no connection any more.
    ghost closed: { Self → Bool };

    /// How often an accept has failed.
    ghost faults: { Self → ℕ };

    /// What an ended connection keeps.
    ghost kept: { Self.Past → Heard };

    /// The next connection. It makes the room for what will be heard on it too. Once the gate is closed it
    /// answers Closed, or that it failed or found no memory.
    fn accept(&mut self) -> Accepted<Self::Link>
        ensures no_fault { IfConnection result (λ link. Self.Link.faults link ≡ 0) }
        ensures fresh { IsTrue Self.Link.tells → IfConnection result (λ link. IsFresh (Self.Link.traffic link)) }

        ensures was_open { IfConnection result (λ _. closed self.old ≡ false) }
        ensures closes { OnClosed result (closed self.new ≡ true) }
        ensures was_closed { IsTrue Self.Link.tells → OnClosed result (closed self.old ≡ true) }
        ensures stays_closed { IsTrue (closed self.old) → IsTrue (closed self.new) }

        ensures gives { IsTrue Self.Link.tells → connections self.new ≡ after_accept (connections self.old) result }
        ensures counts { CountsAccept (faults self.old) (faults self.new) result };

    /// Ends a connection, and keeps what its link gave, took and counted. Takes no memory.
    fn end(link: Self::Link) -> Self::Past
        ensures { IsTrue Self.Link.tells → kept result ≡ heard_of (Self.Link.traffic link) (Self.Link.faults link) };

    /// Adds what an ended connection keeps to the log. Takes no memory.
    fn hang_up(&mut self, past: Self::Past)
        requires { IsTrue Self.Link.tells → 0 < (connections self.old).out }

        ensures logs { IsTrue Self.Link.tells → connections self.new ≡ one_hung_up (connections self.old) (kept past) }
        ensures same_closed { closed self.new ≡ closed self.old }
        ensures same_faults { faults self.new ≡ faults self.old };
}
