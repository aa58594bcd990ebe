//! Reads responses.
ghost use Rattle.std.specs.Prelude.{◌≡◌, Bool, length, None, Some, Ok, Err, IsSome, IfOk, IfErr, IfSome, IfNone};
ghost use Rattle.capture.specs.First.{Responses};
ghost use Rattle.http_head.specs.declared.head.WireFault.{WireFault};
ghost use Rattle.http_wire.specs.Answers.{Reaches, HeadsBy, IsWholeNow, Leaves};
ghost use Rattle.http_wire.specs.Messages.{IsResponse};
ghost use Rattle.http_wire.specs.Heads.{BeginsWithResponse};
ghost use Rattle.http_wire.specs.HeldBodies.{closed_standing};
ghost use Rattle.http_wire.specs.Reading.{ComesBeforeTheEnd, Open, Failed, HasFault, LacksHead, Stands, Takes, TakesSome, IsEnded};
ghost use Rattle.http_wire.specs.ResponseReading.{new_response};

use crate::progress::{Fed, Progress};
use crate::response::parts::ResponseParts;
use http_head::{Received, ResponseHead, WireFault};
use std::alloc::Global;
use std::marker::Model;

/// Reads responses from a stream, one after the other, within the limits (RFC 9112). A contract sees whether they answer
/// HEAD, the bytes that came since the last response was taken, the head once it has come, and what the reader has come
/// to. What each answer says of these bytes is what stands first in them, however they were cut into pieces.
#[derive(Drop)]
pub struct ResponseReader {
    answers_head: bool,
    parts: ResponseParts,
    fault: Option<WireFault>,
}

impl Model for ResponseReader {
    ghost use Rattle.http_wire.specs.ResponseReading.{ResponseReading};

    ghost Value = { ResponseReading };

    ghost use Rattle.http_wire.specs.HeldBodies.{standing_of};
    ghost use Rattle.http_wire.specs.Parts.{ResponseAgrees, response_bytes};

    ghost view = { λ r. record {
      answers_head = r.answers_head;
      stream = response_bytes r.parts;
      head = r.parts.head;
      standing = standing_of r.fault r.parts.held;
    } };

    ghost invariant = { λ r. ResponseAgrees r.answers_head r.parts r.fault };
}

impl ResponseReader {
    /// A reader of responses to HEAD, or to another method, of which nothing has come. Takes no memory.
    pub fn new(alloc: Global, answers_head: bool) -> ResponseReader
        ensures { result ≡ new_response answers_head }
    {
        ResponseReader {
            answers_head,
            parts: ResponseParts::new(alloc),
            fault: None,
        }
    }

    /// Takes bytes from the front of the piece, up to the head's end, the message's end or the first byte that shows a
    /// fault. The head is answered once, also where the message ends with it: the message is whole at a further call,
    /// which may be given an empty piece. A message that is whole or cut stays so until it is taken, and a fault is
    /// answered again at each later call, want of memory too.
    pub fn feed(&mut self, alloc: Global, piece: &[u8]) -> Result<Fed, WireFault>
        ensures answers_head { self.new.answers_head ≡ self.old.answers_head }
        ensures takes { IfOk result (λ fed. Takes (Responses self.old.answers_head) self.old.stream piece.now fed.used self.new.stream) }
        ensures takes_some { IfErr result (λ fault. TakesSome (Responses self.old.answers_head) self.old.stream piece.now self.new.stream) }
        ensures all { IfOk result (λ fed. fed.progress ≡ Progress.More → fed.used ≡ length piece.now) }
        ensures reaches { self.old.standing ≡ Open → IfOk result (λ fed. Reaches (Responses self.old.answers_head) fed.progress self.new.stream) }
        ensures heads { self.old.standing ≡ Open → IfOk result (λ fed. HeadsBy fed.progress self.old.head self.new.head) }
        ensures leaves { self.old.standing ≡ Open → Leaves result self.new.standing }
        ensures goes_on { self.old.standing ≡ Open → IfErr result ComesBeforeTheEnd }
        ensures whole { self.old.standing ≡ Open → IfOk result (λ _. IsWholeNow (Responses self.old.answers_head) self.new.stream self.new.standing) }
        ensures keeps { IsSome self.old.head → self.new.head ≡ self.old.head }
        ensures refuses { IfErr result (λ fault. HasFault (Responses self.old.answers_head) fault self.new.stream) }
        ensures stands { Stands (Responses self.old.answers_head) self.new.stream self.new.standing }
        ensures again { IsEnded self.old.standing → (result ≡ Ok (record { used = 0; progress = Progress.Whole })) × (self.new ≡ self.old) }
        ensures latched { (fault : WireFault) → self.old.standing ≡ Failed fault → (result ≡ Err fault) × (self.new ≡ self.old) }
    {
        match self.fault {
            Some(fault) => Err(fault),
            None => match self.parts.feed(alloc, self.answers_head, piece) {
                Ok(fed) => Ok(fed),
                Err(fault) => {
                    self.fault = Some(fault);
                    Err(fault)
                }
            },
        }
    }

    /// Tells that the stream has ended: a body up to its end is whole, and another of which more was to come is cut.
    /// EndedEarly: the head isn't whole.
    pub fn end(&mut self) -> Result<(), WireFault>
        ensures answers_head { self.new.answers_head ≡ self.old.answers_head }
        ensures stream { self.new.stream ≡ self.old.stream }
        ensures head { self.new.head ≡ self.old.head }
        ensures ended { IfOk result (λ _. IsEnded self.new.standing) }
        ensures stands { Stands (Responses self.old.answers_head) self.new.stream self.new.standing }
        ensures refuses { IfErr result (λ fault. HasFault (Responses self.old.answers_head) fault self.new.stream) }
        ensures early { self.old.standing ≡ Open → IfErr result (λ fault. fault ≡ WireFault.EndedEarly) }
        ensures again { IsEnded self.old.standing → (result ≡ Ok tt) × (self.new ≡ self.old) }
        ensures leaves { IfErr result (λ fault. self.new.standing ≡ Failed fault) }
        ensures latched { (fault : WireFault) → self.old.standing ≡ Failed fault → (result ≡ Err fault) × (self.new ≡ self.old) }
    {
        match self.fault {
            Some(fault) => Err(fault),
            None => {
                if self.parts.end(self.answers_head) {
                    return Ok(());
                }
                self.fault = Some(WireFault::EndedEarly);
                Err(WireFault::EndedEarly)
            }
        }
    }

    /// The head, once it has come: with the answer Head, or with a fault that the head tells.
    pub fn head(&self) -> Option<&ResponseHead>
        ensures some { IfSome result (λ head. self.now.head ≡ Some head.now) }
        ensures begins { IfSome result (λ head. BeginsWithResponse self.now.stream head.now) }
        ensures none { IfNone result (self.now.head ≡ None) }
        ensures lacks { IfNone result (LacksHead (Responses self.now.answers_head) self.now.stream self.now.standing) }
    {
        match &self.parts.head {
            Some(head) => Some(head),
            None => None,
        }
    }

    /// Gives the response, which is whole, or cut as it tells. Afterwards the reader is as new. Takes no memory.
    pub fn take(&mut self) -> Received
        requires { IsEnded self.old.standing }
        ensures message { IsResponse self.old.answers_head self.old.stream result }
        ensures cut { self.old.standing ≡ closed_standing result.cut }
        ensures taken { self.new ≡ new_response self.old.answers_head }
    {
        self.parts.take(self.answers_head)
    }
}
