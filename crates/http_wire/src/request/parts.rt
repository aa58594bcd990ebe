//! The parts of a reader of requests, which know nothing of a fault that was answered.
ghost use Rattle.std.specs.Prelude.{◌≡◌, [], length, None, IfOk, IfErr, IsSome, IsTrue, OnErr};
ghost use Rattle.capture.specs.First.{Requests};
ghost use Rattle.http_head.specs.HeadReading as reading;
ghost use Rattle.http_wire.specs.Answers.{Reaches, HeadsBy, IsWholeNow, LeavesAt};
ghost use Rattle.http_wire.specs.HeldBodies.{fault_of, fault_of_end, held_bytes, held_standing};
ghost use Rattle.http_wire.specs.Reading.{ComesBeforeTheEnd, Open, Whole, Takes, TakesSome, TellsBody};

use crate::framing::request_framing;
use crate::held::{Held, begin_body, close_body, feed_body, payload_of_closed};
use crate::progress::{Fed, Progress};
use capture::Memory;
use http_head::{
    HeadProgress, HeadReader, RequestHead, RequestMessage, WireFault, read_request_head,
};
use std::alloc::Global;
use std::mem;

/// The parts of a reader of requests.
#[derive(Drop)]
pub struct RequestParts {
    /// The stream up to the end of its head.
    pub front: HeadReader,
    /// The head, once it has come.
    pub head: Option<RequestHead>,
    /// What came of the body.
    pub held: Held,
}

impl RequestParts {
    ghost use Rattle.http_wire.specs.Messages.{IsRequest};
    ghost use Rattle.http_wire.specs.Parts.{RequestAgrees, request_bytes, new_parts};
    ghost use Rattle.http_wire.specs.RequestReading.{EndsBetween};

    /// The parts of a new reader. Takes no memory.
    pub fn new(alloc: Global) -> RequestParts
        ensures { result ≡ new_parts }
    {
        RequestParts {
            front: HeadReader::new(alloc),
            head: None,
            held: Held::Before,
        }
    }

    /// Takes bytes from the front of the piece, none where the message is whole.
    pub fn feed(&mut self, alloc: Global, piece: &[u8]) -> Result<Fed, WireFault>
        requires { RequestAgrees self.old None }
        ensures agrees { RequestAgrees self.new (fault_of result) }
        ensures takes { IfOk result (λ fed. Takes Requests (request_bytes self.old) piece.now fed.used (request_bytes self.new)) }
        ensures takes_some { IfErr result (λ fault. TakesSome Requests (request_bytes self.old) piece.now (request_bytes self.new)) }
        ensures all { IfOk result (λ fed. fed.progress ≡ Progress.More → fed.used ≡ length piece.now) }
        ensures reaches { held_standing self.old.held ≡ Open → IfOk result (λ fed. Reaches Requests fed.progress (request_bytes self.new)) }
        ensures heads { held_standing self.old.held ≡ Open → IfOk result (λ fed. HeadsBy fed.progress self.old.head self.new.head) }
        ensures leaves { held_standing self.old.held ≡ Open → IfOk result (λ fed. LeavesAt fed.progress (held_standing self.new.held)) }
        ensures goes_on { held_standing self.old.held ≡ Open → IfErr result ComesBeforeTheEnd }
        ensures whole { held_standing self.old.held ≡ Open → IfOk result (λ _. IsWholeNow Requests (request_bytes self.new) (held_standing self.new.held)) }
        ensures keeps { IsSome self.old.head → self.new.head ≡ self.old.head }
        ensures again { held_standing self.old.held ≡ Whole → (result ≡ Ok (record { used = 0; progress = Progress.Whole })) × (self.new ≡ self.old) }
    {
        match mem::replace(&mut self.held, Held::Before) {
            Held::Before => self.feed_head(alloc, piece),
            Held::Open(body) => {
                let step = feed_body(body, piece);
                self.held = step.held;
                step.came
            }
            Held::Closed(closed) => {
                self.held = Held::Closed(closed);
                Ok(Fed {
                    used: 0,
                    progress: Progress::Whole,
                })
            }
        }
    }

    /// Takes bytes of the head.
    fn feed_head(&mut self, alloc: Global, piece: &[u8]) -> Result<Fed, WireFault>
        requires open { reading.IsOpen self.old.front }
        requires none { self.old.head ≡ None }
        requires before { self.old.held ≡ Held.Before }
        ensures agrees { RequestAgrees self.new (fault_of result) }
        ensures takes { IfOk result (λ fed. Takes Requests (request_bytes self.old) piece.now fed.used (request_bytes self.new)) }
        ensures takes_some { IfErr result (λ fault. TakesSome Requests (request_bytes self.old) piece.now (request_bytes self.new)) }
        ensures all { IfOk result (λ fed. fed.progress ≡ Progress.More → fed.used ≡ length piece.now) }
        ensures reaches { IfOk result (λ fed. Reaches Requests fed.progress (request_bytes self.new)) }
        ensures heads { IfOk result (λ fed. HeadsBy fed.progress self.old.head self.new.head) }
        ensures leaves { IfOk result (λ fed. LeavesAt fed.progress (held_standing self.new.held)) }
        ensures goes_on { IfErr result ComesBeforeTheEnd }
        ensures whole { IfOk result (λ _. IsWholeNow Requests (request_bytes self.new) (held_standing self.new.held)) }
    {
        // Matches in place of `?`, since the clauses say of the fault itself what it tells of the stream.
        match self.front.feed(piece) {
            Ok(fed) => match fed.progress {
                HeadProgress::More => Ok(Fed {
                    used: fed.used,
                    progress: Progress::More,
                }),
                HeadProgress::TooLong => Err(WireFault::HeadTooLong),
                HeadProgress::Head => match self.read_front(alloc) {
                    Ok(()) => Ok(Fed {
                        used: fed.used,
                        progress: Progress::Head,
                    }),
                    Err(fault) => Err(fault),
                },
            },
            Err(Memory) => Err(WireFault::Memory),
        }
    }

    /// Reads the head with which the front ends, and begins its body.
    fn read_front(&mut self, alloc: Global) -> Result<(), WireFault>
        requires ends { reading.EndsWithHead self.old.front }
        requires none { self.old.head ≡ None }
        requires before { self.old.held ≡ Held.Before }
        ensures agrees { RequestAgrees self.new (fault_of result) }
        ensures front { self.new.front ≡ self.old.front }
        ensures bytes { held_bytes self.new.held ≡ [] }
        ensures some { IfOk result (λ _. IsSome self.new.head) }
        ensures tells { IfOk result (λ _. TellsBody Requests self.new.front) }
        ensures leaves { IfOk result (λ _. LeavesAt Progress.Head (held_standing self.new.held)) }
        ensures goes_on { IfErr result ComesBeforeTheEnd }
        ensures whole { IfOk result (λ _. IsWholeNow Requests (request_bytes self.new) (held_standing self.new.held)) }
    {
        let head = read_request_head(alloc, self.front.text())?;
        let told = request_framing(&head);
        self.head = Some(head);
        let framing = told?;
        let held = begin_body(alloc, framing)?;
        self.held = held;
        Ok(())
    }

    /// Whether an end here is between messages. A body up to the stream's end is whole then.
    pub fn end(&mut self) -> bool
        requires { RequestAgrees self.old None }
        ensures agrees { RequestAgrees self.new (fault_of_end result) }
        ensures bytes { request_bytes self.new ≡ request_bytes self.old }
        ensures head { self.new.head ≡ self.old.head }
        ensures again { held_standing self.old.held ≡ Whole → IsTrue result × (self.new ≡ self.old) }
        ensures between { IsTrue result → EndsBetween (request_bytes self.new) (held_standing self.new.held) }
    {
        match mem::replace(&mut self.held, Held::Before) {
            Held::Before => self.front.is_blank(),
            Held::Open(body) => {
                if body.ends_whole() {
                    self.held = close_body(body, false);
                    return true;
                }
                self.held = Held::Open(body);
                false
            }
            Held::Closed(closed) => {
                let cut = closed.cut;
                self.held = Held::Closed(closed);
                if cut {
                    return false;
                }
                true
            }
        }
    }

    /// The message, which is whole. Afterwards nothing has come. Where there is no memory for its payload it stays.
    pub fn take(&mut self, alloc: Global) -> Result<RequestMessage, Memory>
        requires agrees { RequestAgrees self.old None }
        requires whole { held_standing self.old.held ≡ Whole }
        ensures ok { IfOk result (IsRequest (request_bytes self.old)) }
        ensures taken { IfOk result (λ _. self.new ≡ new_parts) }
        ensures kept { OnErr result (self.new ≡ self.old) }
    {
        match mem::replace(&mut self.held, Held::Before) {
            Held::Closed(closed) => {
                let framing = closed.framing;
                match payload_of_closed(alloc, closed) {
                    Ok(payload) => match self.head.take() {
                        Some(head) => {
                            self.front.clear();
                            Ok(RequestMessage {
                                head,
                                framing,
                                payload,
                            })
                        }
                        None => unreachable!(),
                    },
                    Err(closed) => {
                        self.held = Held::Closed(closed);
                        Err(Memory)
                    }
                }
            }
            Held::Before => unreachable!(),
            Held::Open(_) => unreachable!(),
        }
    }
}
