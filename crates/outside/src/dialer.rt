//! The way to an origin: a dialer makes links to hosts, and keeps a transcript of each that was hung up.
ghost use Rattle.std.specs.Prelude.{◌≡◌, ◌<◌, ℕ, IsTrue, IsAscii, IfOk, OnOk, OnErr};
ghost use Rattle.outside.specs.declared.dialer.Transcript.{Transcript};
ghost use Rattle.outside.specs.Link.{no_traffic};
ghost use Rattle.outside.specs.Dialer.{transcript_of, CountsDial, TakesOverFaults};
ghost use Rattle.outside.specs.Records.{Links, one_out, one_in};

use crate::Link;
use capture::{Bytes, Text};
use thiserror::Error;

/// Why a dial gave no link.
#[derive(Clone, Copy, Debug, PartialEq, Eq, Error)]
pub enum DialError {
    /// The host wasn't reached: the dialer's count of faults rose.
    #[error("the host wasn't reached")]
    Failed,
    /// There was no memory.
    #[error("no memory")]
    Memory,
}

/// What went over one link: where it led, what was sent there, and what came back.
#[derive(Drop)]
pub struct Transcript {
    /// The host that was dialled.
    pub host: Text,
    /// The port that was dialled.
    pub port: u16,
    /// The bytes that the link took.
    pub sent: Bytes,
    /// The bytes that the link gave.
    pub given: Bytes,
    /// Whether the end of what it gave was met.
    pub ended: bool,
    /// How often the link failed.
    pub faults: u64,
}

/// Makes links to hosts. Whether it tells what became of them is said by the type of its links.
pub trait Dialer {
    /// The links that it makes.
    type Link: Link + Drop;

    /// The transcripts of the links that were hung up, in that order, and how many links are out: dialled and
    /// not hung up.
    ghost links: { Self → Links Transcript };

    /// How often a dial has failed or a link with a fault was hung up.
    ghost faults: { Self → ℕ };

    /// A new link to this host, which is ASCII, and port. It makes the room for the link's transcript too.
    fn dial(&mut self, host: &str, port: u16) -> Result<Self::Link, DialError>
        requires { IsAscii host.now }

        ensures no_fault { IfOk result (λ link. Self.Link.faults link ≡ 0) }
        ensures fresh { IsTrue Self.Link.tells →
            IfOk result (λ link. Self.Link.traffic link ≡ no_traffic host.now port) }

        ensures one_more { IsTrue Self.Link.tells → OnOk result (links self.new ≡ one_out (links self.old)) }
        ensures no_more { IsTrue Self.Link.tells → OnErr result (links self.new ≡ links self.old) }
        ensures counts { CountsDial (faults self.old) (faults self.new) result };

    /// Ends a link, and adds its transcript to the log. Takes no memory.
    fn hang_up(&mut self, link: Self::Link)
        requires { IsTrue Self.Link.tells → 0 < (links self.old).out }

        ensures logs { IsTrue Self.Link.tells →
            links self.new ≡ one_in (links self.old) (transcript_of (Self.Link.traffic link) (Self.Link.faults link)) }
        ensures counts { TakesOverFaults (Self.Link.faults link) (faults self.old) (faults self.new) };
}
