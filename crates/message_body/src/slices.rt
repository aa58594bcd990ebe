//! A payload slice by slice, as it lies in its wire.
ghost use Rattle.std.specs.Prelude.{◌≡◌, ◌+◌, ◌≤◌, ℕ, Bool, true, false, [], List, length};
ghost use Rattle.capture.specs.Payload.{IsPayload};
ghost use Rattle.message_body.specs.Slices.{IsLeft, LeavesBehind, is_chunked as spec_chunked};

use crate::split::{Split, split_chunk};
use capture::Framing;

/// What is left of a payload that is walked over slice by slice, where it lies in its wire. It takes no memory.
#[derive(Drop)]
pub struct Slices<'w> {
    /// What is left of the wire.
    pub rest: &'w [u8],
    /// Whether chunks stand in it.
    pub chunked: bool,
}

/// Whether chunks stand in a wire of this framing.
fn is_chunked(framing: Framing) -> bool
    ensures { result ≡ spec_chunked framing }
{
    match framing {
        Framing::Empty => false,
        Framing::Length(_) => false,
        Framing::Chunked => true,
        Framing::ToEnd => false,
    }
}

impl<'w> Slices<'w> {
    /// The payload of a wire, whole or cut.
    pub fn of(framing: Framing, wire: &'w [u8]) -> Slices<'w>
        ensures { (cut : Bool) (payload : List ℕ) → IsPayload cut framing wire.now payload → IsLeft result.chunked result.rest.now payload }
    {
        Slices {
            rest: wire,
            chunked: is_chunked(framing),
        }
    }

    /// The next slice. It is empty at the payload's end alone, and it doesn't stand in what is left then of the wire.
    pub fn next(&mut self) -> &'w [u8]
        ensures front { (left : List ℕ) → IsLeft self.old.chunked self.old.rest.now left → LeavesBehind left result.now self.new.chunked self.new.rest.now }
        ensures room { length result.now + length self.new.rest.now ≤ length self.old.rest.now }
    {
        let rest = self.rest;
        if self.chunked {
            return self.next_chunk(rest);
        }
        let (all, none) = rest.split_at(rest.len());
        self.rest = none;
        all
    }

    /// The next slice of a wire in which chunks stand.
    fn next_chunk(&mut self, rest: &'w [u8]) -> &'w [u8]
        ensures front { (left : List ℕ) → IsLeft true rest.now left → LeavesBehind left result.now self.new.chunked self.new.rest.now }
        ensures room { length result.now + length self.new.rest.now ≤ length rest.now }
    {
        match split_chunk(rest) {
            Split::Piece(span) => {
                let (_, line_end) = rest.split_at(span.end);
                let (_, behind) = line_end.split_at(2);
                *self = Slices {
                    rest: behind,
                    chunked: true,
                };
                span.of(rest)
            }
            Split::Last(_) => self.end(rest),
            Split::Cut(span) => {
                let _none = self.end(rest);
                span.of(rest)
            }
            Split::Nothing => self.end(rest),
        }
    }

    /// Nothing is left.
    fn end(&mut self, rest: &'w [u8]) -> &'w [u8]
        ensures none { result.now ≡ [] }
        ensures rest { self.new.rest.now ≡ [] }
        ensures chunked { self.new.chunked ≡ false }
    {
        let (none, _) = rest.split_at(0);
        *self = Slices {
            rest: none,
            chunked: false,
        };
        none
    }
}
