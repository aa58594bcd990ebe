//! Answers requests.
ghost use Rattle.std.specs.Prelude.{◌≡◌, ◌≤◌, [], IsTrue, IfOk};
ghost use Rattle.archive_shelf.specs.Told.{GoesOn};
ghost use Rattle.outside.specs.declared.gate.Heard.{Heard};
ghost use Rattle.request_answer.specs.steps.Answering.{Answers, Incoming, IsWellAsked};
ghost use Rattle.request_answer.specs.Requests.{IsAsked, IsInterim, closes_after as closes_by};

use crate::answer_text::Answer;
use crate::exchanging::{Proxied, answer_proxied};
use crate::visit::Visit;
use crate::visiting::answer_visit;
use archive_shelf::Shelf;
use capture::{Memory, Site};
use exchange::{Aim, Window};
use http_head::RequestMessage;
use outside::{Clock, Dialer};
use std::alloc::Global;

/// What a client asks.
#[derive(Drop)]
pub struct Asked {
    /// Its request.
    pub message: RequestMessage,
    /// Where that goes.
    pub aim: Aim,
}

/// A request that is to be answered.
#[derive(Drop)]
pub struct Ask<'a> {
    /// What the client asks.
    pub asked: Asked,
    /// The archive's site.
    pub site: &'a Site,
    /// Whether the connection closes behind the answer, by the request or by its number.
    pub closes: bool,
}

/// Answers a request: one to an origin by its response, which is stored before, one to the site by what the archive holds. The window
/// serves the links to origins.
pub fn answer<S: Shelf, N: Dialer, C: Clock>(
    alloc: Global,
    shelf: &mut S,
    dialer: &mut N,
    clock: &mut C,
    window: &mut Window,
    ask: Ask,
) -> Result<Answer, Memory>
    requires asked { IsWellAsked ask.site.now ask.asked }
    requires empty { window.old ≡ [] }
    ensures answers { IsTrue N.Link.tells → (incoming : Incoming) (then now : Heard)
        → ask.entry.closes ≡ closes_by incoming.served ask.entry.asked.message.head
        → IsAsked ask.entry.site.now incoming.wire ask.entry.asked.message ask.entry.asked.aim → IsInterim ask.entry.site.now incoming.wire incoming.interim
        → Answers S.alone (record { site = ask.entry.site.now; clock_tells = C.tells }) incoming result
        (record { heard = then; answers = C.answers clock.old; links = N.links dialer.old; dialer_faults = N.faults dialer.old; shelf = S.told shelf.old })
        (record { heard = now; answers = C.answers clock.new; links = N.links dialer.new; dialer_faults = N.faults dialer.new; shelf = S.told shelf.new }) }
    ensures closes { IfOk result (λ answer. IsTrue ask.entry.closes → IsTrue answer.closes) }
    ensures goes_on { GoesOn S.alone (S.told shelf.old) (S.told shelf.new) }
    ensures faults { N.faults dialer.old ≤ N.faults dialer.new }
    ensures window { window.new ≡ [] }
{
    let Ask {
        asked,
        site,
        closes,
    } = ask;
    let Asked { message, aim } = asked;
    match aim {
        Aim::Origin(target) => answer_proxied(
            alloc,
            shelf,
            dialer,
            clock,
            window,
            Proxied {
                message,
                target,
                closes,
            },
        ),
        Aim::Site(address) => answer_visit(
            alloc,
            shelf,
            Visit {
                message: &message,
                address: address.as_slice(),
                site,
                closes,
            },
        ),
    }
}
