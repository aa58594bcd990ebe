//! Reads requests.
ghost use Rattle.std.specs.Prelude.{◌≡◌, length, Some, Ok, Err, None, IsSome, IfOk, IfErr, IfSome, IfNone, OnErr};
ghost use Rattle.capture.specs.First.{Requests};
ghost use Rattle.http_head.specs.declared.head.WireFault.{WireFault};
ghost use Rattle.http_wire.specs.Answers.{Reaches, HeadsBy, IsWholeNow, Leaves};
ghost use Rattle.http_wire.specs.Messages.{IsRequest};
ghost use Rattle.http_wire.specs.Heads.{BeginsWithRequest};
ghost use Rattle.http_wire.specs.Reading.{ComesBeforeTheEnd, Open, Whole, Failed, HasFault, LacksHead, Stands, Takes, TakesSome};
ghost use Rattle.http_wire.specs.RequestReading.{new_request, EndsBetween};

use crate::progress::{Fed, Progress};
use crate::request::parts::RequestParts;
use capture::Memory;
use http_head::{RequestHead, RequestMessage, WireFault};
use std::alloc::Global;
use std::marker::Model;

/// Reads requests from a stream, one after the other, within the limits (RFC 9112). A contract sees the bytes that came
/// since the last request was taken, the head once it has come, and what the reader has come to. What each answer says
/// of these bytes is what stands first in them, however they were cut into pieces.
#[derive(Drop)]
pub struct RequestReader {
    parts: RequestParts,
    fault: Option<WireFault>,
}

impl Model for RequestReader {
    ghost use Rattle.http_wire.specs.RequestReading.{RequestReading};

    ghost Value = { RequestReading };

    ghost use Rattle.http_wire.specs.HeldBodies.{standing_of};
    ghost use Rattle.http_wire.specs.Parts.{RequestAgrees, request_bytes};

    ghost view = { λ r. record { stream = request_bytes r.parts; head = r.parts.head; standing = standing_of r.fault r.parts.held } };

    ghost invariant = { λ r. RequestAgrees r.parts r.fault };
}

impl RequestReader {
    /// A reader of which nothing has come. Takes no memory.
    pub fn new(alloc: Global) -> RequestReader
        ensures { result ≡ new_request }
    {
        RequestReader {
            parts: RequestParts::new(alloc),
            fault: None,
        }
    }

    /// Takes bytes from the front of the piece, up to the head's end, the message's end or the first byte that shows a
    /// fault. The head is answered once, also where the message ends with it: the message is whole at a further call,
    /// which may be given an empty piece. A message that is whole stays so until it is taken, and a fault is answered
    /// again at each later call, want of memory too.
    pub fn feed(&mut self, alloc: Global, piece: &[u8]) -> Result<Fed, WireFault>
        ensures takes { IfOk result (λ fed. Takes Requests self.old.stream piece.now fed.used self.new.stream) }
        ensures takes_some { IfErr result (λ fault. TakesSome Requests self.old.stream piece.now self.new.stream) }
        ensures all { IfOk result (λ fed. fed.progress ≡ Progress.More → fed.used ≡ length piece.now) }
        ensures reaches { self.old.standing ≡ Open → IfOk result (λ fed. Reaches Requests fed.progress self.new.stream) }
        ensures heads { self.old.standing ≡ Open → IfOk result (λ fed. HeadsBy fed.progress self.old.head self.new.head) }
        ensures leaves { self.old.standing ≡ Open → Leaves result self.new.standing }
        ensures goes_on { self.old.standing ≡ Open → IfErr result ComesBeforeTheEnd }
        ensures whole { self.old.standing ≡ Open → IfOk result (λ _. IsWholeNow Requests self.new.stream self.new.standing) }
        ensures keeps { IsSome self.old.head → self.new.head ≡ self.old.head }
        ensures refuses { IfErr result (λ fault. HasFault Requests fault self.new.stream) }
        ensures stands { Stands Requests self.new.stream self.new.standing }
        ensures again { self.old.standing ≡ Whole → (result ≡ Ok (record { used = 0; progress = Progress.Whole })) × (self.new ≡ self.old) }
        ensures latched { (fault : WireFault) → self.old.standing ≡ Failed fault → (result ≡ Err fault) × (self.new ≡ self.old) }
    {
        match self.fault {
            Some(fault) => Err(fault),
            None => match self.parts.feed(alloc, piece) {
                Ok(fed) => Ok(fed),
                Err(fault) => {
                    self.fault = Some(fault);
                    Err(fault)
                }
            },
        }
    }

    /// Tells that the stream has ended. EndedEarly: inside a message. Line ends that are skipped are no message.
    pub fn end(&mut self) -> Result<(), WireFault>
        ensures stream { self.new.stream ≡ self.old.stream }
        ensures head { self.new.head ≡ self.old.head }
        ensures between { IfOk result (λ _. EndsBetween self.new.stream self.new.standing) }
        ensures refuses { IfErr result (λ fault. HasFault Requests fault self.new.stream) }
        ensures early { self.old.standing ≡ Open → IfErr result (λ fault. fault ≡ WireFault.EndedEarly) }
        ensures again { self.old.standing ≡ Whole → (result ≡ Ok tt) × (self.new ≡ self.old) }
        ensures leaves { IfErr result (λ fault. self.new.standing ≡ Failed fault) }
        ensures latched { (fault : WireFault) → self.old.standing ≡ Failed fault → (result ≡ Err fault) × (self.new ≡ self.old) }
    {
        match self.fault {
            Some(fault) => Err(fault),
            None => {
                if self.parts.end() {
                    return Ok(());
                }
                self.fault = Some(WireFault::EndedEarly);
                Err(WireFault::EndedEarly)
            }
        }
    }

    /// The head, once it has come: with the answer Head, or with a fault that the head tells.
    pub fn head(&self) -> Option<&RequestHead>
        ensures some { IfSome result (λ head. self.now.head ≡ Some head.now) }
        ensures begins { IfSome result (λ head. BeginsWithRequest self.now.stream head.now) }
        ensures none { IfNone result (self.now.head ≡ None) }
        ensures lacks { IfNone result (LacksHead Requests self.now.stream self.now.standing) }
    {
        match &self.parts.head {
            Some(head) => Some(head),
            None => None,
        }
    }

    /// Gives the message, which is whole, with its payload. Afterwards the reader is as new. Where there is no memory for
    /// the payload the message stays.
    pub fn take(&mut self, alloc: Global) -> Result<RequestMessage, Memory>
        requires { self.old.standing ≡ Whole }
        ensures message { IfOk result (IsRequest self.old.stream) }
        ensures taken { IfOk result (λ _. self.new ≡ new_request) }
        ensures kept { OnErr result (self.new ≡ self.old) }
    {
        self.parts.take(alloc)
    }
}
