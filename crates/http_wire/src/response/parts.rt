//! The parts of a reader of responses, which know nothing of a fault that was answered.
ghost use Rattle.std.specs.Prelude.{◌≡◌, [], length, None, IfOk, IfErr, IsSome, IsTrue};
ghost use Rattle.capture.specs.First.{Responses};
ghost use Rattle.http_head.specs.HeadReading as reading;
ghost use Rattle.http_wire.specs.Answers.{Reaches, HeadsBy, IsWholeNow, LeavesAt};
ghost use Rattle.http_wire.specs.HeldBodies.{fault_of, fault_of_end, held_bytes, held_standing, closed_standing};
ghost use Rattle.http_wire.specs.Reading.{ComesBeforeTheEnd, Open, Takes, TakesSome, TellsBody, IsEnded};

use crate::framing::response_framing;
use crate::held::{ClosedBody, Held, begin_body, close_body, feed_body};
use crate::progress::{Fed, Progress};
use capture::Memory;
use http_head::{HeadProgress, HeadReader, Received, ResponseHead, WireFault, read_head};
use std::alloc::Global;
use std::mem;

/// The parts of a reader of responses.
#[derive(Drop)]
pub struct ResponseParts {
    /// The stream up to the end of its head.
    pub front: HeadReader,
    /// The head, once it has come.
    pub head: Option<ResponseHead>,
    /// What came of the body.
    pub held: Held,
}

impl ResponseParts {
    ghost use Rattle.http_wire.specs.Messages.{IsResponse};
    ghost use Rattle.http_wire.specs.Parts.{ResponseAgrees, response_bytes, new_response_parts};

    /// The parts of a new reader. Takes no memory.
    pub fn new(alloc: Global) -> ResponseParts
        ensures { result ≡ new_response_parts }
    {
        ResponseParts {
            front: HeadReader::new(alloc),
            head: None,
            held: Held::Before,
        }
    }

    /// Takes bytes from the front of the piece, none where the message is whole or cut.
    pub fn feed(
        &mut self,
        alloc: Global,
        answers_head: bool,
        piece: &[u8],
    ) -> Result<Fed, WireFault>
        requires { ResponseAgrees answers_head self.old None }
        ensures agrees { ResponseAgrees answers_head self.new (fault_of result) }
        ensures takes { IfOk result (λ fed. Takes (Responses answers_head) (response_bytes self.old) piece.now fed.used (response_bytes self.new)) }
        ensures takes_some { IfErr result (λ fault. TakesSome (Responses answers_head) (response_bytes self.old) piece.now (response_bytes self.new)) }
        ensures all { IfOk result (λ fed. fed.progress ≡ Progress.More → fed.used ≡ length piece.now) }
        ensures reaches { held_standing self.old.held ≡ Open → IfOk result (λ fed. Reaches (Responses answers_head) fed.progress (response_bytes self.new)) }
        ensures heads { held_standing self.old.held ≡ Open → IfOk result (λ fed. HeadsBy fed.progress self.old.head self.new.head) }
        ensures leaves { held_standing self.old.held ≡ Open → IfOk result (λ fed. LeavesAt fed.progress (held_standing self.new.held)) }
        ensures goes_on { held_standing self.old.held ≡ Open → IfErr result ComesBeforeTheEnd }
        ensures whole { held_standing self.old.held ≡ Open → IfOk result (λ _. IsWholeNow (Responses answers_head) (response_bytes self.new) (held_standing self.new.held)) }
        ensures keeps { IsSome self.old.head → self.new.head ≡ self.old.head }
        ensures again { IsEnded (held_standing self.old.held) → (result ≡ Ok (record { used = 0; progress = Progress.Whole })) × (self.new ≡ self.old) }
    {
        match mem::replace(&mut self.held, Held::Before) {
            Held::Before => self.feed_head(alloc, answers_head, piece),
            Held::Open(body) => {
                let step = feed_body(body, piece);
                self.held = step.held;
                step.came
            }
            Held::Closed(closed) => {
                self.held = Held::Closed(closed);
                Ok(Fed {
                    used: 0,
                    progress: Progress::Whole,
                })
            }
        }
    }

    /// Takes bytes of the head.
    fn feed_head(
        &mut self,
        alloc: Global,
        answers_head: bool,
        piece: &[u8],
    ) -> Result<Fed, WireFault>
        requires open { reading.IsOpen self.old.front }
        requires none { self.old.head ≡ None }
        requires before { self.old.held ≡ Held.Before }
        ensures agrees { ResponseAgrees answers_head self.new (fault_of result) }
        ensures takes { IfOk result (λ fed. Takes (Responses answers_head) (response_bytes self.old) piece.now fed.used (response_bytes self.new)) }
        ensures takes_some { IfErr result (λ fault. TakesSome (Responses answers_head) (response_bytes self.old) piece.now (response_bytes self.new)) }
        ensures all { IfOk result (λ fed. fed.progress ≡ Progress.More → fed.used ≡ length piece.now) }
        ensures reaches { IfOk result (λ fed. Reaches (Responses answers_head) fed.progress (response_bytes self.new)) }
        ensures heads { IfOk result (λ fed. HeadsBy fed.progress self.old.head self.new.head) }
        ensures leaves { IfOk result (λ fed. LeavesAt fed.progress (held_standing self.new.held)) }
        ensures goes_on { IfErr result ComesBeforeTheEnd }
        ensures whole { IfOk result (λ _. IsWholeNow (Responses answers_head) (response_bytes self.new) (held_standing self.new.held)) }
    {
        // Matches in place of `?`, since the clauses say of the fault itself what it tells of the stream.
        match self.front.feed(piece) {
            Ok(fed) => match fed.progress {
                HeadProgress::More => Ok(Fed {
                    used: fed.used,
                    progress: Progress::More,
                }),
                HeadProgress::TooLong => Err(WireFault::HeadTooLong),
                HeadProgress::Head => match self.read_front(alloc, answers_head) {
                    Ok(()) => Ok(Fed {
                        used: fed.used,
                        progress: Progress::Head,
                    }),
                    Err(fault) => Err(fault),
                },
            },
            Err(Memory) => Err(WireFault::Memory),
        }
    }

    /// Reads the head with which the front ends, and begins its body.
    fn read_front(&mut self, alloc: Global, answers_head: bool) -> Result<(), WireFault>
        requires ends { reading.EndsWithHead self.old.front }
        requires none { self.old.head ≡ None }
        requires before { self.old.held ≡ Held.Before }
        ensures agrees { ResponseAgrees answers_head self.new (fault_of result) }
        ensures front { self.new.front ≡ self.old.front }
        ensures bytes { held_bytes self.new.held ≡ [] }
        ensures some { IfOk result (λ _. IsSome self.new.head) }
        ensures tells { IfOk result (λ _. TellsBody (Responses answers_head) self.new.front) }
        ensures leaves { IfOk result (λ _. LeavesAt Progress.Head (held_standing self.new.held)) }
        ensures goes_on { IfErr result ComesBeforeTheEnd }
        ensures whole { IfOk result (λ _. IsWholeNow (Responses answers_head) (response_bytes self.new) (held_standing self.new.held)) }
    {
        let head = read_head(alloc, self.front.text())?;
        let told = response_framing(answers_head, &head);
        self.head = Some(head);
        let framing = told?;
        let held = begin_body(alloc, framing)?;
        self.held = held;
        Ok(())
    }

    /// Ends the stream: a body of which more was to come is whole then, or cut. False: the head isn't whole.
    pub fn end(&mut self, answers_head: bool) -> bool
        requires { ResponseAgrees answers_head self.old None }
        ensures agrees { ResponseAgrees answers_head self.new (fault_of_end result) }
        ensures bytes { response_bytes self.new ≡ response_bytes self.old }
        ensures head { self.new.head ≡ self.old.head }
        ensures again { IsEnded (held_standing self.old.held) → IsTrue result × (self.new ≡ self.old) }
        ensures ended { IsTrue result → IsEnded (held_standing self.new.held) }
    {
        match mem::replace(&mut self.held, Held::Before) {
            Held::Before => false,
            Held::Open(body) => {
                if body.ends_whole() {
                    let whole = close_body(body, false);
                    self.held = whole;
                    return true;
                }
                let cut = close_body(body, true);
                self.held = cut;
                true
            }
            Held::Closed(closed) => {
                self.held = Held::Closed(closed);
                true
            }
        }
    }

    /// The response, which is whole or cut. Afterwards nothing has come. Takes no memory.
    pub fn take(&mut self, answers_head: bool) -> Received
        requires agrees { ResponseAgrees answers_head self.old None }
        requires ended { IsEnded (held_standing self.old.held) }
        ensures message { IsResponse answers_head (response_bytes self.old) result }
        ensures cut { held_standing self.old.held ≡ closed_standing result.cut }
        ensures taken { self.new ≡ new_response_parts }
    {
        match mem::replace(&mut self.held, Held::Before) {
            Held::Closed(closed) => match self.head.take() {
                Some(head) => {
                    self.front.clear();
                    let ClosedBody { framing, wire, cut } = closed;
                    Received {
                        head,
                        framing,
                        wire,
                        cut,
                    }
                }
                None => unreachable!(),
            },
            Held::Before => unreachable!(),
            Held::Open(_) => unreachable!(),
        }
    }
}
