//! Answers requests to origins: the exchange is stored, durably, before its response is passed on.
ghost use Rattle.std.specs.Prelude.{◌≡◌, ◌≤◌, ℕ, List, [], length, IfOk, IsTrue};
ghost use Rattle.archive_shelf.specs.Told.{GoesOn};
ghost use Rattle.capture.specs.Methods.{asks_for_head as method_asks};
ghost use Rattle.capture.specs.Payload.{IsPayload};
ghost use Rattle.capture.specs.declared.limits.TheConstants.{BODY_LIMIT};
ghost use Rattle.capture.specs.declared.site.Site.{Site};
ghost use Rattle.http_wire.specs.Messages.{IsOneResponse};
ghost use Rattle.exchange.specs.Storing.{IsForOrigin};
ghost use Rattle.exchange.specs.Texts.{forwarded};
ghost use Rattle.outside.specs.declared.gate.Heard.{Heard};
ghost use Rattle.request_answer.specs.Exchanges as spec;
ghost use Rattle.request_answer.specs.steps.Exchanging.{AnswersProxied, Around, Asks, Comes, HasCome, Keeps, exchange_of, given_of};
ghost use Rattle.time_text.specs.Texts.{InRange};
ghost use Rattle.warc_text.specs.Fits.{Fits};

use crate::answer_text::Answer;
use crate::faults::{why_unfetched, why_unstored};
use crate::heads::asks_for_head;
use crate::laws::stored_captures_have_their_payload;
use crate::passing::{Ready, passed_on};
use crate::refusing::{declined, refused};
use archive_shelf::Shelf;
use capture::{Bytes, Memory, Refusal, Taken};
use exchange::{Target, Window, fetch, forward_text, requests_can_be_stored};
use http_head::{Received, RequestHead, RequestMessage};
use http_wire::responses_can_be_stored;
use outside::{Clock, Dialer};
use std::alloc::Global;
use time_text::LATEST;

/// A request that goes to an origin.
#[derive(Drop)]
pub struct Proxied {
    /// The request.
    pub message: RequestMessage,
    /// The origin.
    pub target: Target,
    /// Whether the connection closes behind the answer, by the request or by its number.
    pub closes: bool,
}

/// A request as it is sent.
#[derive(Drop)]
struct Sending {
    /// The client's request, and the origin.
    proxied: Proxied,
    /// The clock's answer, in milliseconds since 1970.
    date: u64,
    /// The text that the origin gets.
    request: Bytes,
}

/// Answers a request to an origin. The clock is asked once, and the origin over one link, which the window serves. The answer is made
/// ready, the exchange is stored, and only then is the answer given.
pub fn answer_proxied<S: Shelf, N: Dialer, C: Clock>(
    alloc: Global,
    shelf: &mut S,
    dialer: &mut N,
    clock: &mut C,
    window: &mut Window,
    proxied: Proxied,
) -> Result<Answer, Memory>
    requires asked { IsForOrigin proxied.message proxied.target }
    requires empty { window.old ≡ [] }
    ensures answers { IsTrue N.Link.tells → (site : Site) (then now : Heard)
        → AnswersProxied S.alone (record { site = site; clock_tells = C.tells }) (exchange_of proxied) proxied.closes result
        (record { heard = then; answers = C.answers clock.old; links = N.links dialer.old; dialer_faults = N.faults dialer.old; shelf = S.told shelf.old })
        (record { heard = now; answers = C.answers clock.new; links = N.links dialer.new; dialer_faults = N.faults dialer.new; shelf = S.told shelf.new }) }
    ensures closes { IfOk result (λ answer. IsTrue proxied.closes → IsTrue answer.closes) }
    ensures goes_on { GoesOn S.alone (S.told shelf.old) (S.told shelf.new) }
    ensures faults { N.faults dialer.old ≤ N.faults dialer.new }
    ensures window { window.new ≡ [] }
{
    let date = clock.now();
    if LATEST < date {
        return Ok(refused(
            Refusal::ClockRange { now: date },
            asks_for_head(&proxied.message.head),
            proxied.closes,
        ));
    }
    let request = match forward_text(alloc, &proxied.message, &proxied.target) {
        Ok(request) => request,
        Err(Memory) => return Err(Memory),
    };
    ask(
        alloc,
        shelf,
        dialer,
        window,
        Sending {
            proxied,
            date,
            request,
        },
    )
}

/// Asks the origin, and passes its response on.
fn ask<S: Shelf, N: Dialer>(
    alloc: Global,
    shelf: &mut S,
    dialer: &mut N,
    window: &mut Window,
    sending: Sending,
) -> Result<Answer, Memory>
    requires asked { IsForOrigin sending.proxied.message sending.proxied.target }
    requires request { sending.request ≡ forwarded sending.proxied.message sending.proxied.target }
    requires date { InRange sending.date }
    requires empty { window.old ≡ [] }
    ensures asks { IsTrue N.Link.tells → (site : Site)
        → Asks S.alone site (exchange_of sending.proxied) sending.proxied.closes sending.date result
        (record { links = N.links dialer.old; faults = N.faults dialer.old; shelf = S.told shelf.old })
        (record { links = N.links dialer.new; faults = N.faults dialer.new; shelf = S.told shelf.new }) }
    ensures closes { IfOk result (λ answer. IsTrue sending.proxied.closes → IsTrue answer.closes) }
    ensures goes_on { GoesOn S.alone (S.told shelf.old) (S.told shelf.new) }
    ensures faults { N.faults dialer.old ≤ N.faults dialer.new }
    ensures window { window.new ≡ [] }
{
    let answers_head = asks_for_head(&sending.proxied.message.head);
    match fetch(
        alloc,
        dialer,
        window,
        &sending.proxied.target,
        answers_head,
        sending.request.as_slice(),
    ) {
        Ok(received) => pass_on(alloc, shelf, sending, received),
        Err(fault) => declined(why_unfetched(fault), answers_head, sending.proxied.closes),
    }
}

/// Makes the answer to a response ready, stores the exchange, and gives the answer.
fn pass_on<S: Shelf>(
    alloc: Global,
    shelf: &mut S,
    sending: Sending,
    received: Received,
) -> Result<Answer, Memory>
    requires asked { IsForOrigin sending.proxied.message sending.proxied.target }
    requires request { sending.request ≡ forwarded sending.proxied.message sending.proxied.target }
    requires date { InRange sending.date }
    requires response { IsOneResponse (method_asks sending.proxied.message.head.method) received }
    requires final_status { 200 ≤ received.head.status }
    requires within { length received.wire ≤ BODY_LIMIT }
    ensures passes { (site : Site) (around : Around) → HasCome (exchange_of sending.proxied) sending.date received around
        → Comes S.alone site (exchange_of sending.proxied) around sending.proxied.closes result (S.told shelf.old) (S.told shelf.new) }
    ensures closes { IfOk result (λ answer. IsTrue sending.proxied.closes → IsTrue answer.closes) }
    ensures goes_on { GoesOn S.alone (S.told shelf.old) (S.told shelf.new) }
{
    requests_can_be_stored();
    responses_can_be_stored();
    stored_captures_have_their_payload();
    let answers_head = asks_for_head(&sending.proxied.message.head);
    let closes = sending.proxied.closes;
    let ready = match passed_on(alloc, &received, answers_head, closes) {
        Ok(ready) => ready,
        Err(Memory) => return Err(Memory),
    };
    keep(
        alloc,
        shelf,
        taken_of(sending, received),
        ready,
        answers_head,
        closes,
    )
}

/// What is stored of an exchange.
fn taken_of(sending: Sending, received: Received) -> Taken
    requires { sending.request ≡ forwarded sending.proxied.message sending.proxied.target }
    ensures { result ≡ spec.taken_of (exchange_of sending.proxied) sending.date received }
{
    let Sending {
        proxied,
        date,
        request,
    } = sending;
    let Proxied {
        message,
        target,
        ..
    } = proxied;
    let RequestMessage { head: asked, .. } = message;
    let RequestHead { method, .. } = asked;
    let Target { uri, .. } = target;
    let Received {
        head,
        wire,
        cut,
        ..
    } = received;
    Taken {
        method,
        uri,
        date,
        request,
        head: head.text,
        wire,
        cut,
    }
}

/// Stores a capture, and gives the answer that is ready; or refuses the request, where the capture isn't stored.
fn keep<S: Shelf>(
    alloc: Global,
    shelf: &mut S,
    taken: Taken,
    ready: Ready,
    answers_head: bool,
    closes: bool,
) -> Result<Answer, Memory>
    requires { Fits taken }
    ensures { (payload : List ℕ) → IsPayload taken.cut ready.framing taken.wire payload
        → Keeps S.alone taken (given_of ready payload) answers_head closes result (S.told shelf.old) (S.told shelf.new) }
{
    match shelf.store(alloc, &taken) {
        Ok(_receipt) => {
            let Taken { wire, .. } = taken;
            Ok(ready.given(wire))
        }
        Err(fault) => declined(why_unstored(fault), answers_head, closes),
    }
}
