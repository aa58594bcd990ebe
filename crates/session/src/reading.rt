//! Reads a client's requests.
ghost use Rattle.std.specs.Prelude.{◌≡◌, ◌≤◌, ℕ, [], List, true, Some, Ok, Err, IsSome, IsTrue, OnOk, IfOk, IfErr, MatchResult, codes, if◌then◌else◌};
ghost use Rattle.capture.specs.Faults.{CountsFaults, Rose};
ghost use Rattle.capture.specs.First.{Requests};
ghost use Rattle.capture.specs.declared.site.Site.{Site as TheSite};
ghost use Rattle.exchange.specs.Aim as aims;
ghost use Rattle.exchange.specs.Aim.{HasShortHost};
ghost use Rattle.exchange.specs.Receiving.{MayGoOn};
ghost use Rattle.exchange.specs.Refusals.{refusal_text as text_of_refusal, memory_text};
ghost use Rattle.exchange.specs.declared.aim.Aim.{Aim as TheAim};
ghost use Rattle.http_head.specs.declared.head.RequestHead.{RequestHead as TheHead};
ghost use Rattle.http_wire.specs.Heads.{HoldsHead};
ghost use Rattle.http_wire.specs.Messages.{IsRequest};
ghost use Rattle.http_wire.specs.Reading.{Failed as HasFailed, Whole as IsWhole, ComesBeforeTheEnd, HasFault};
ghost use Rattle.http_wire.specs.RequestReading.{new_request};
ghost use Rattle.outside.specs.Gate.{heard_of};
ghost use Rattle.session.specs.steps.Reads.{AwaitsRest, Client, ComesFaulty, HasTaken, IsBehind, LooksAt, Owes, Reads, ReadsBody, ReadsNone, RefusesAim};
ghost use Rattle.request_answer.specs.steps.Answering.{IsWellAsked};
ghost use Rattle.session.specs.steps.Reads as steps;
ghost use Rattle.request_answer.specs.steps.Wire.{Breaks, Writes};
ghost use Rattle.session.specs.steps.Wire.{EndsRefusal, Tries};

use crate::Served;
use crate::giving_up::give_up;
use crate::heads::asks_to_go_on;
use capture::{Failed, Memory, Refusal, Site};
use exchange::{Aim, AimFault, Came, Window, aim_of, receive_request, refusal_text};
use http_head::{RequestHead, RequestMessage, WireFault};
use http_wire::RequestReader;
use outside::Link;
use request_answer::{Asked, asks_for_head, say};
use std::alloc::Global;

/// Reads the next request of a client whose link is whole. Where the client waits for that, it is told that the body is awaited
/// (RFC 9110, section 10.1.1). Bytes that are refused for themselves are answered; they, the client's end, a fault of its link and
/// want of memory end the connection.
pub fn read_request<L: Link>(
    alloc: Global,
    client: &mut L,
    window: &mut Window,
    site: &Site,
) -> Result<Asked, Served>
    requires { L.faults client.old ≡ 0 }
    ensures reads { IsTrue L.tells → Reads site.now
        (record { heard = heard_of (L.traffic client.old) (L.faults client.old); pending = window.old })
        (record { heard = heard_of (L.traffic client.new) (L.faults client.new); pending = window.new }) result }
    ensures well { IfOk result (IsWellAsked site.now) }
    ensures whole { OnOk result (L.faults client.new ≡ 0) }
    ensures later { L.faults client.old ≤ L.faults client.new }
    ensures broke { result ≡ Err Served.ClientBroke → Rose (L.faults client.old) (L.faults client.new) }
{
    await_request(client, window);
    let mut reader = RequestReader::new(alloc);
    read_next(alloc, client, window, site, &mut reader)
}

/// Says to a client's link that nothing but a next request is awaited. Where bytes of one have come, with what was before it, it
/// has begun.
fn await_request<L: Link>(client: &mut L, window: &Window)
    ensures same_traffic { IsTrue L.tells → L.traffic client.new ≡ L.traffic client.old }
    ensures same_faults { L.faults client.new ≡ L.faults client.old }
{
    if window.is_empty() {
        client.await_request();
    }
}

/// Reads the next request, which may have begun, with a reader that has read nothing yet.
fn read_next<L: Link>(
    alloc: Global,
    client: &mut L,
    window: &mut Window,
    site: &Site,
    reader: &mut RequestReader,
) -> Result<Asked, Served>
    requires no_fault { L.faults client.old ≡ 0 }
    requires empty { reader.old ≡ new_request }
    ensures reads { IsTrue L.tells → Reads site.now
        (record { heard = heard_of (L.traffic client.old) (L.faults client.old); pending = window.old })
        (record { heard = heard_of (L.traffic client.new) (L.faults client.new); pending = window.new }) result }
    ensures well { IfOk result (IsWellAsked site.now) }
    ensures whole { OnOk result (L.faults client.new ≡ 0) }
    ensures later { L.faults client.old ≤ L.faults client.new }
    ensures broke { result ≡ Err Served.ClientBroke → Rose (L.faults client.old) (L.faults client.new) }
{
    match receive_request(alloc, client, window, reader) {
        Came::Head => read_on(alloc, client, window, site, reader),
        Came::Whole => unreachable!(),
        Came::Ended => Err(Served::Done),
        Came::EndedInside => {
            holds_its_head(reader);
            Err(Served::ClientEndedEarly)
        }
        Came::Broken => {
            holds_its_head(reader);
            Err(Served::ClientBroke)
        }
        Came::Refused(fault) => Err(turn_back(alloc, client, site, reader, fault)),
    }
}

/// Looks at the head of a request, which has come, and reads its body.
fn read_on<L: Link>(
    alloc: Global,
    client: &mut L,
    window: &mut Window,
    site: &Site,
    reader: &mut RequestReader,
) -> Result<Asked, Served>
    requires no_fault { L.faults client.old ≡ 0 }
    requires going { MayGoOn Requests reader.old.stream reader.old.standing }
    requires held { IsSome reader.old.head }
    ensures reads { IsTrue L.tells → (from : Client)
        → HasTaken from reader.old.stream [] (record { heard = heard_of (L.traffic client.old) (L.faults client.old); pending = window.old })
        → Reads site.now from (record { heard = heard_of (L.traffic client.new) (L.faults client.new); pending = window.new }) result }
    ensures well { IfOk result (IsWellAsked site.now) }
    ensures whole { OnOk result (L.faults client.new ≡ 0) }
    ensures later { L.faults client.old ≤ L.faults client.new }
    ensures broke { result ≡ Err Served.ClientBroke → Rose (L.faults client.old) (L.faults client.new) }
{
    let head = match reader.head() {
        Some(head) => head,
        None => unreachable!(),
    };
    let aim = match look_at(alloc, client, site, head) {
        Ok(aim) => aim,
        Err(end) => return Err(end),
    };
    match read_body(alloc, client, window, reader) {
        Ok(message) => Ok(Asked { message, aim }),
        Err(end) => Err(end),
    }
}

/// Reads the body of a request, whose head was looked at.
fn read_body<L: Link>(
    alloc: Global,
    client: &mut L,
    window: &mut Window,
    reader: &mut RequestReader,
) -> Result<RequestMessage, Served>
    requires no_fault { L.faults client.old ≡ 0 }
    requires going { MayGoOn Requests reader.old.stream reader.old.standing }
    requires held { IsSome reader.old.head }
    ensures reads { IsTrue L.tells → (site : TheSite) (from : Client) (head : TheHead) (aim : TheAim) → reader.old.head ≡ Some head
        → AwaitsRest site from reader.old.stream head aim
        (record { heard = heard_of (L.traffic client.old) (L.faults client.old); pending = window.old })
        → ReadsBody site from aim (record { heard = heard_of (L.traffic client.new) (L.faults client.new); pending = window.new }) result }
    ensures behind { IfOk result (λ message. (head : TheHead) → reader.old.head ≡ Some head → IsBehind head message) }
    ensures whole { OnOk result (L.faults client.new ≡ 0) }
    ensures later { L.faults client.old ≤ L.faults client.new }
    ensures broke { result ≡ Err Served.ClientBroke → Rose (L.faults client.old) (L.faults client.new) }
{
    match receive_request(alloc, client, window, reader) {
        Came::Whole => {
            holds_its_head(reader);
            take(alloc, client, reader)
        }
        Came::Head => unreachable!(),
        Came::Ended => {
            holds_its_head(reader);
            unreachable!()
        }
        Came::EndedInside => {
            holds_its_head(reader);
            Err(Served::ClientEndedEarly)
        }
        Came::Broken => {
            holds_its_head(reader);
            Err(Served::ClientBroke)
        }
        Came::Refused(fault) => Err(turn_away(client, reader, fault)),
    }
}

/// Takes a request that is whole.
fn take<L: Link>(
    alloc: Global,
    client: &mut L,
    reader: &mut RequestReader,
) -> Result<RequestMessage, Served>
    requires no_fault { L.faults client.old ≡ 0 }
    requires whole { reader.old.standing ≡ IsWhole }
    ensures message { IfOk result (IsRequest reader.old.stream) }
    ensures same { OnOk result (heard_of (L.traffic client.new) (L.faults client.new) ≡ heard_of (L.traffic client.old) (L.faults client.old)) }
    ensures gives_up { IsTrue L.tells → IfErr result (λ end. (end ≡ Served.WantOfMemory) × Tries memory_text
        (heard_of (L.traffic client.old) (L.faults client.old)) (heard_of (L.traffic client.new) (L.faults client.new))) }
    ensures memory { IfErr result (λ end. end ≡ Served.WantOfMemory) }
    ensures later { L.faults client.old ≤ L.faults client.new }
{
    match reader.take(alloc) {
        Ok(message) => Ok(message),
        Err(Memory) => Err(give_up(client)),
    }
}

/// Answers bytes that are no message, of which a head may have come: that is looked at first.
fn turn_back<L: Link>(
    alloc: Global,
    client: &mut L,
    site: &Site,
    reader: &RequestReader,
    fault: WireFault,
) -> Served
    requires no_fault { L.faults client.old ≡ 0 }
    requires failed { reader.now.standing ≡ HasFailed fault }
    requires faulty { HasFault Requests fault reader.now.stream }
    requires before { ComesBeforeTheEnd fault }
    ensures ends { IsTrue L.tells → (from : Client)
        → ComesFaulty from reader.now.stream [] (heard_of (L.traffic client.old) (L.faults client.old))
        → ReadsNone site.now from (heard_of (L.traffic client.new) (L.faults client.new)) result }
    ensures later { L.faults client.old ≤ L.faults client.new }
    ensures broke { result ≡ Served.ClientBroke → Rose (L.faults client.old) (L.faults client.new) }
{
    let head = match reader.head() {
        Some(head) => head,
        None => return turn_away(client, reader, fault),
    };
    let _aim = match look_at(alloc, client, site, head) {
        Ok(aim) => aim,
        Err(end) => return end,
    };
    turn_away(client, reader, fault)
}

/// Answers bytes that are no message; a head that came was looked at, and what it asks for was written.
fn turn_away<L: Link>(client: &mut L, reader: &RequestReader, fault: WireFault) -> Served
    requires no_fault { L.faults client.old ≡ 0 }
    requires failed { reader.now.standing ≡ HasFailed fault }
    requires faulty { HasFault Requests fault reader.now.stream }
    requires before { ComesBeforeTheEnd fault }
    ensures ends { IsTrue L.tells → (site : TheSite) (from : Client) (interim : List ℕ) → Owes site reader.now.head interim
        → ComesFaulty from reader.now.stream interim (heard_of (L.traffic client.old) (L.faults client.old))
        → ReadsNone site from (heard_of (L.traffic client.new) (L.faults client.new)) result }
    ensures later { L.faults client.old ≤ L.faults client.new }
    ensures broke { result ≡ Served.ClientBroke → Rose (L.faults client.old) (L.faults client.new) }
{
    let answers_head = is_for_head(reader);
    match fault {
        WireFault::Malformed => refuse(client, Refusal::Malformed, answers_head),
        WireFault::HeadTooLong => refuse(client, Refusal::HeadTooLong, answers_head),
        WireFault::BodyTooLong => refuse(client, Refusal::BodyTooLong, answers_head),
        WireFault::CodingRefused => refuse(client, Refusal::CodingRefused, answers_head),
        WireFault::EndedEarly => unreachable!(),
        WireFault::Memory => give_up(client),
    }
}

/// Whether the head that a reader holds, if it does, asks for a head alone.
fn is_for_head(reader: &RequestReader) -> bool
    ensures value { result ≡ steps.answers_head reader.now.head }
    ensures holds { HoldsHead reader.now.stream reader.now.standing reader.now.head }
{
    match reader.head() {
        Some(head) => asks_for_head(head),
        None => false,
    }
}

/// The head that a reader holds is the one that stands first in what it read. This reads nothing: it is for the proof.
fn holds_its_head(reader: &RequestReader)
    ensures { HoldsHead reader.now.stream reader.now.standing reader.now.head }
{
    match reader.head() {
        Some(_) => {}
        None => {}
    }
}

/// Looks at where a head goes, and tells a client that waits for that that the body is awaited.
fn look_at<L: Link>(
    alloc: Global,
    client: &mut L,
    site: &Site,
    head: &RequestHead,
) -> Result<Aim, Served>
    requires { L.faults client.old ≡ 0 }
    ensures looks { IsTrue L.tells → LooksAt site.now head.now
        (heard_of (L.traffic client.old) (L.faults client.old)) (heard_of (L.traffic client.new) (L.faults client.new)) result }
    ensures aimed { IfOk result (λ aim. aims.aim_of site.now head.now.method head.now.target ≡ Ok aim) }
    ensures short { IfOk result HasShortHost }
    ensures whole { OnOk result (L.faults client.new ≡ 0) }
    ensures later { L.faults client.old ≤ L.faults client.new }
    ensures broke { result ≡ Err Served.ClientBroke → Rose (L.faults client.old) (L.faults client.new) }
{
    let aim = match aim_of(alloc, head, site) {
        Ok(aim) => aim,
        Err(fault) => return Err(refuse_aim(client, fault, asks_for_head(head))),
    };
    match go_ahead(client, asks_to_go_on(head)) {
        Ok(()) => Ok(aim),
        Err(Failed) => Err(Served::ClientBroke),
    }
}

/// Tells a client that waits for that that the body is awaited.
fn go_ahead<L: Link>(client: &mut L, waits: bool) -> Result<(), Failed>
    requires { L.faults client.old ≡ 0 }
    ensures says { IsTrue L.tells → MatchResult result
        (λ _. Writes (if waits then codes "HTTP/1.1 100 Continue\r\n\r\n" else []) (heard_of (L.traffic client.old) (L.faults client.old)) (heard_of (L.traffic client.new) (L.faults client.new)))
        (λ _. Breaks (if waits then codes "HTTP/1.1 100 Continue\r\n\r\n" else []) (heard_of (L.traffic client.old) (L.faults client.old)) (heard_of (L.traffic client.new) (L.faults client.new))) }
    ensures whole { OnOk result (L.faults client.new ≡ 0) }
    ensures counts { CountsFaults (L.faults client.old) (L.faults client.new) result }
{
    if waits {
        return say(client, continue_text());
    }
    Ok(())
}

/// The answer that asks for the body (RFC 9110, section 15.2.1).
fn continue_text() -> &'static [u8]
    ensures { result.now ≡ codes "HTTP/1.1 100 Continue\r\n\r\n" }
{
    b"HTTP/1.1 100 Continue\r\n\r\n"
}

/// Refuses a head that goes nowhere.
fn refuse_aim<L: Link>(client: &mut L, fault: AimFault, answers_head: bool) -> Served
    requires { L.faults client.old ≡ 0 }
    ensures ends { IsTrue L.tells → RefusesAim fault answers_head
        (heard_of (L.traffic client.old) (L.faults client.old)) (heard_of (L.traffic client.new) (L.faults client.new)) result }
    ensures later { L.faults client.old ≤ L.faults client.new }
    ensures broke { result ≡ Served.ClientBroke → Rose (L.faults client.old) (L.faults client.new) }
{
    match fault {
        AimFault::ConnectRefused => refuse(client, Refusal::ConnectRefused, answers_head),
        AimFault::SecureRefused => refuse(client, Refusal::SecureRefused, answers_head),
        AimFault::TargetRefused => refuse(client, Refusal::TargetRefused, answers_head),
        AimFault::Memory => give_up(client),
    }
}

/// Refuses a client's bytes, which closes the connection.
fn refuse<L: Link>(client: &mut L, refusal: Refusal, answers_head: bool) -> Served
    requires { L.faults client.old ≡ 0 }
    ensures ends { IsTrue L.tells → EndsRefusal refusal (text_of_refusal refusal answers_head true)
        (heard_of (L.traffic client.old) (L.faults client.old)) (heard_of (L.traffic client.new) (L.faults client.new)) result }
    ensures later { L.faults client.old ≤ L.faults client.new }
    ensures broke { result ≡ Served.ClientBroke → Rose (L.faults client.old) (L.faults client.new) }
{
    let text = refusal_text(&refusal, answers_head, true);
    match say(client, text.as_slice()) {
        Ok(()) => Served::ClientRefused(refusal),
        Err(Failed) => Served::ClientBroke,
    }
}
