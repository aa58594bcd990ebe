//! Asks an origin for its response.
ghost use Rattle.std.specs.Prelude.{◌≡◌, ◌≤◌, [], length, IsTrue, OnOk, IfOk};
ghost use Rattle.capture.specs.declared.limits.TheConstants.{BODY_LIMIT};
ghost use Rattle.http_wire.specs.Messages.{IsOneResponse};
ghost use Rattle.exchange.specs.Fetches.{CountsFetch, LinkFaults, LogsFetch, Receives, Sends};
ghost use Rattle.exchange.specs.steps.Responses.{Answers, IsFaultOf};
ghost use Rattle.exchange.specs.Receiving.{Gives};
ghost use Rattle.http_wire.specs.Reading.{ComesBeforeTheEnd};
ghost use Rattle.http_wire.specs.ResponseReading.{new_response};
ghost use Rattle.outside.specs.Link.{IsFresh};

use crate::aim::Target;
use crate::output::write_all;
use crate::receiving::{Came, receive_response};
use crate::window::Window;
use capture::{Failed, INTERIM_LIMIT};
use http_head::{Received, WireFault};
use http_wire::ResponseReader;
use outside::{DialError, Dialer, Link};
use std::alloc::Global;
use thiserror::Error;

/// The least status of a final response (RFC 9110, section 15).
const FINAL_STATUS: u16 = 200;

/// Why a fetch gave no response.
#[derive(Clone, Copy, Debug, Error)]
pub enum FetchFault {
    /// The origin wasn't reached: the dialer's count of faults rose.
    #[error("the origin wasn't reached")]
    DialFault,
    /// The link to the origin failed: the dialer's count of faults rose.
    #[error("the link to the origin failed")]
    OriginFault,
    /// The origin ended before the head of its final response was whole.
    #[error("the origin ended before its response had a whole head")]
    OriginEnded,
    /// What the origin gave isn't in the grammar of HTTP/1.1, or has a transfer coding that isn't `chunked` alone.
    #[error("what the origin gave isn't in the grammar of HTTP/1.1")]
    OriginMalformed,
    /// A head, a trailer section or a body of the origin passes its limit.
    #[error("the origin's response passes a limit")]
    OriginTooLong,
    /// The origin gave more interim responses than are dropped.
    #[error("the origin gave too many interim responses")]
    TooManyInterim,
    /// There was no memory.
    #[error("no memory")]
    Memory,
}

/// Dials the target once, writes the request, reads the final response, whole or cut, and hangs up, also after a fault.
/// Interim responses before it and bytes behind it are dropped. The window serves the link: it is empty, and is so
/// afterwards. A client's link has another.
pub fn fetch<N: Dialer>(
    alloc: Global,
    dialer: &mut N,
    window: &mut Window,
    target: &Target,
    answers_head: bool,
    request: &[u8],
) -> Result<Received, FetchFault>
    requires { window.old ≡ [] }
    ensures logs { IsTrue N.Link.tells → LogsFetch (record { target = target.now; request = request.now; answers_head = answers_head }) result
        (N.links dialer.old) (N.links dialer.new) }
    ensures response { IfOk result (IsOneResponse answers_head) }
    ensures final_status { IfOk result (λ received. 200 ≤ received.head.status) }
    ensures within { IfOk result (λ received. length received.wire ≤ BODY_LIMIT) }
    ensures counts { CountsFetch (N.faults dialer.old) (N.faults dialer.new) result }
    ensures window { window.new ≡ [] }
{
    let mut link = match dialer.dial(target.host.as_str(), target.port) {
        Ok(link) => link,
        Err(DialError::Failed) => return Err(FetchFault::DialFault),
        Err(DialError::Memory) => return Err(FetchFault::Memory),
    };
    let result = ask(alloc, &mut link, window, answers_head, request);
    dialer.hang_up(link);
    window.clear();
    result
}

/// Writes the request to a fresh link and reads the response.
fn ask<L: Link>(
    alloc: Global,
    link: &mut L,
    window: &mut Window,
    answers_head: bool,
    request: &[u8],
) -> Result<Received, FetchFault>
    requires no_fault { L.faults link.old ≡ 0 }
    requires fresh { IsTrue L.tells → IsFresh (L.traffic link.old) }
    requires empty { window.old ≡ [] }
    ensures sends { IsTrue L.tells → Sends result request.now (L.traffic link.new).taken (L.traffic link.new).given }
    ensures receives { IsTrue L.tells → Receives answers_head result (L.traffic link.new).given (L.traffic link.new).ended }
    ensures response { IfOk result (IsOneResponse answers_head) }
    ensures final_status { IfOk result (λ received. 200 ≤ received.head.status) }
    ensures within { IfOk result (λ received. length received.wire ≤ BODY_LIMIT) }
    ensures counts { CountsFetch (L.faults link.old) (L.faults link.new) result }
    ensures faults { IsTrue L.tells → LinkFaults result (L.faults link.new) }
    ensures leads_there { IsTrue L.tells → L.traffic link.new ≡ record (L.traffic link.new) {
      host = (L.traffic link.old).host;
      port = (L.traffic link.old).port;
    } }
{
    match write_all(link, request) {
        Ok(()) => receive(alloc, link, window, answers_head),
        Err(Failed) => Err(FetchFault::OriginFault),
    }
}

/// Reads the final response, whole or cut, from a link that has given nothing yet.
fn receive<L: Link>(
    alloc: Global,
    link: &mut L,
    window: &mut Window,
    answers_head: bool,
) -> Result<Received, FetchFault>
    requires nothing { IsTrue L.tells → (L.traffic link.old).given ≡ [] }
    requires empty { window.old ≡ [] }
    ensures receives { IsTrue L.tells → Receives answers_head result (L.traffic link.new).given (L.traffic link.new).ended }
    ensures response { IfOk result (IsOneResponse answers_head) }
    ensures final_status { IfOk result (λ received. 200 ≤ received.head.status) }
    ensures within { IfOk result (λ received. length received.wire ≤ BODY_LIMIT) }
    ensures counts { CountsFetch (L.faults link.old) (L.faults link.new) result }
    ensures gives { IsTrue L.tells → Gives (L.traffic link.old) (L.traffic link.new) }
{
    let mut reader = ResponseReader::new(alloc, answers_head);
    receive_with(alloc, link, window, &mut reader, answers_head)
}

/// The same with this reader, which has read nothing yet.
fn receive_with<L: Link>(
    alloc: Global,
    link: &mut L,
    window: &mut Window,
    reader: &mut ResponseReader,
    answers_head: bool,
) -> Result<Received, FetchFault>
    requires nothing { IsTrue L.tells → (L.traffic link.old).given ≡ [] }
    requires empty { window.old ≡ [] }
    requires reader { reader.old ≡ new_response answers_head }
    ensures receives { IsTrue L.tells → Receives answers_head result (L.traffic link.new).given (L.traffic link.new).ended }
    ensures response { IfOk result (IsOneResponse answers_head) }
    ensures final_status { IfOk result (λ received. 200 ≤ received.head.status) }
    ensures within { IfOk result (λ received. length received.wire ≤ BODY_LIMIT) }
    ensures counts { CountsFetch (L.faults link.old) (L.faults link.new) result }
    ensures gives { IsTrue L.tells → Gives (L.traffic link.old) (L.traffic link.new) }
{
    let mut interims = 0;
    'receiving: loop {
        // No `?`: the proof of this exit names the fault.
        let received = match next_response(alloc, link, window, reader) {
            Ok(received) => received,
            Err(fault) => return Err(fault),
        };
        let is_final = received.head.status >= FINAL_STATUS;
        if is_final {
            return Ok(received);
        }
        let full = interims == INTERIM_LIMIT;
        if full {
            return Err(FetchFault::TooManyInterim);
        }
        interims += 1;
    }
}

/// Reads one response, whole or cut, interim or final.
fn next_response<L: Link>(
    alloc: Global,
    link: &mut L,
    window: &mut Window,
    reader: &mut ResponseReader,
) -> Result<Received, FetchFault>
    requires { reader.old ≡ new_response reader.old.answers_head }
    ensures response { IfOk result (IsOneResponse reader.old.answers_head) }
    ensures within { IfOk result (λ received. length received.wire ≤ BODY_LIMIT) }
    ensures renewed { OnOk result (reader.new ≡ new_response reader.old.answers_head) }
    ensures answers { IsTrue L.tells → Answers reader.old.answers_head result
        (record { given = (L.traffic link.old).given; window = window.old })
        (record { given = (L.traffic link.new).given; window = window.new }) (L.traffic link.new).ended }
    ensures counts { CountsFetch (L.faults link.old) (L.faults link.new) result }
    ensures gives { IsTrue L.tells → Gives (L.traffic link.old) (L.traffic link.new) }
{
    'reading: loop {
        match receive_response(alloc, link, window, reader) {
            Came::Head => {}
            Came::Whole => return Ok(reader.take()),
            Came::Ended => return Ok(reader.take()),
            Came::EndedInside => return Err(FetchFault::OriginEnded),
            Came::Broken => return Err(FetchFault::OriginFault),
            Came::Refused(fault) => return Err(fault_of(fault)),
        }
    }
}

/// Why a message that is refused gives no response.
fn fault_of(fault: WireFault) -> FetchFault
    requires { ComesBeforeTheEnd fault }
    ensures { IsFaultOf fault result }
{
    match fault {
        WireFault::Malformed => FetchFault::OriginMalformed,
        WireFault::CodingRefused => FetchFault::OriginMalformed,
        WireFault::HeadTooLong => FetchFault::OriginTooLong,
        WireFault::BodyTooLong => FetchFault::OriginTooLong,
        WireFault::EndedEarly => unreachable!(),
        WireFault::Memory => FetchFault::Memory,
    }
}
