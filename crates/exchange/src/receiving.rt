//! Reads messages from links.
ghost use Rattle.std.specs.Prelude.{◌≡◌, ◌++◌, ℕ, List, true, IsTrue, IsSome, IfOk};
ghost use Rattle.capture.specs.First.{Requests, Responses, NothingBegun, IsFirst};
ghost use Rattle.exchange.specs.Receiving.{Accounts, Brings, CountsCame, Gives, HeadsOnce, MayGoOn, MeetsEnd, OnEnded};
ghost use Rattle.exchange.specs.steps.Feeding.{BringsHead, Feeds};
ghost use Rattle.http_wire.specs.Reading.{Open, Whole, Stands, IsEnded};

use crate::window::Window;
use capture::Failed;
use http_head::WireFault;
use http_wire::{Progress, RequestReader, ResponseReader};
use outside::Link;
use std::alloc::Global;

/// What came of reading a message.
#[derive(Clone, Copy)]
pub enum Came {
    /// The head, which the reader holds. This is answered once.
    Head,
    /// The whole message.
    Whole,
    /// The link's end: between requests, or with a response, whole or cut.
    Ended,
    /// The link's end inside a request, or before the head of a response is whole.
    EndedInside,
    /// The link failed: its count of faults rose.
    Broken,
    /// What came is no message, for this reason, which isn't the link's end.
    Refused(WireFault),
}

/// Reads on in a request up to its head, its end, or the link's. What the reader doesn't take stays in the window; of a message
/// that is refused nothing does, since where the next one begins isn't known.
pub fn receive_request<L: Link>(
    alloc: Global,
    link: &mut L,
    window: &mut Window,
    reader: &mut RequestReader,
) -> Came
    requires going { MayGoOn Requests reader.old.stream reader.old.standing }
    requires held { reader.old.standing ≡ Whole → IsSome reader.old.head }

    ensures accounts { IsTrue L.tells → Accounts result
        (L.traffic link.old).given (record { stream = reader.old.stream; window = window.old })
        (L.traffic link.new).given (record { stream = reader.new.stream; window = window.new }) }
    ensures brings { Brings Requests result (record { stream = reader.new.stream; window = window.new }) reader.new.standing }
    ensures between { OnEnded result ((reader.new.standing ≡ Open) × IsFirst Requests true reader.new.stream NothingBegun) }
    ensures heads { HeadsOnce result reader.old.head reader.new.head }
    ensures gives { IsTrue L.tells → Gives (L.traffic link.old) (L.traffic link.new) }
    ensures meets_end { IsTrue L.tells → MeetsEnd result (L.traffic link.old).ended (L.traffic link.new).ended }
    ensures counts { CountsCame (L.faults link.old) (L.faults link.new) result }
{
    'reading: loop {
        match feed_request(alloc, window, reader) {
            Ok(Progress::More) => {}
            Ok(Progress::Head) => return Came::Head,
            Ok(Progress::Whole) => return Came::Whole,
            Err(fault) => return Came::Refused(fault),
        }
        match window.refill(link) {
            Ok(true) => {}
            Ok(false) => match reader.end() {
                Ok(()) => return Came::Ended,
                Err(_) => return Came::EndedInside,
            },
            Err(Failed) => return Came::Broken,
        }
    }
}

/// Feeds the window to the reader. Behind a fault nothing stays in the window.
fn feed_request(
    alloc: Global,
    window: &mut Window,
    reader: &mut RequestReader,
) -> Result<Progress, WireFault>
    requires going { MayGoOn Requests reader.old.stream reader.old.standing }
    requires held { reader.old.standing ≡ Whole → IsSome reader.old.head }
    ensures feeds { Feeds Requests result (record { stream = reader.old.stream; window = window.old })
        (record { stream = reader.new.stream; window = window.new }) reader.new.standing }
    ensures heads { BringsHead result reader.old.head reader.new.head }
{
    match reader.feed(alloc, window.as_slice()) {
        Ok(fed) => {
            window.advance(fed.used);
            Ok(fed.progress)
        }
        Err(fault) => {
            window.clear();
            Err(fault)
        }
    }
}

/// Reads on in a response up to its head, its end, or the link's. What the reader doesn't take stays in the window; of a message
/// that is refused nothing does, since where the next one begins isn't known.
pub fn receive_response<L: Link>(
    alloc: Global,
    link: &mut L,
    window: &mut Window,
    reader: &mut ResponseReader,
) -> Came
    requires going { MayGoOn (Responses reader.old.answers_head) reader.old.stream reader.old.standing }
    requires held { reader.old.standing ≡ Whole → IsSome reader.old.head }

    ensures accounts { IsTrue L.tells → Accounts result
        (L.traffic link.old).given (record { stream = reader.old.stream; window = window.old })
        (L.traffic link.new).given (record { stream = reader.new.stream; window = window.new }) }
    ensures brings { Brings (Responses reader.old.answers_head) result (record { stream = reader.new.stream; window = window.new }) reader.new.standing }
    ensures answers_head { reader.new.answers_head ≡ reader.old.answers_head }
    ensures ended { OnEnded result (IsEnded reader.new.standing) }
    ensures stands { OnEnded result (Stands (Responses reader.old.answers_head) reader.new.stream reader.new.standing) }
    ensures heads { HeadsOnce result reader.old.head reader.new.head }
    ensures gives { IsTrue L.tells → Gives (L.traffic link.old) (L.traffic link.new) }
    ensures meets_end { IsTrue L.tells → MeetsEnd result (L.traffic link.old).ended (L.traffic link.new).ended }
    ensures counts { CountsCame (L.faults link.old) (L.faults link.new) result }
{
    'reading: loop {
        match feed_response(alloc, window, reader) {
            Ok(Progress::More) => {}
            Ok(Progress::Head) => return Came::Head,
            Ok(Progress::Whole) => return Came::Whole,
            Err(fault) => return Came::Refused(fault),
        }
        match window.refill(link) {
            Ok(true) => {}
            Ok(false) => match reader.end() {
                Ok(()) => return Came::Ended,
                Err(_) => return Came::EndedInside,
            },
            Err(Failed) => return Came::Broken,
        }
    }
}

/// Feeds the window to the reader. Behind a fault nothing stays in the window.
fn feed_response(
    alloc: Global,
    window: &mut Window,
    reader: &mut ResponseReader,
) -> Result<Progress, WireFault>
    requires going { MayGoOn (Responses reader.old.answers_head) reader.old.stream reader.old.standing }
    requires held { reader.old.standing ≡ Whole → IsSome reader.old.head }
    ensures feeds { Feeds (Responses reader.old.answers_head) result (record { stream = reader.old.stream; window = window.old })
        (record { stream = reader.new.stream; window = window.new }) reader.new.standing }
    ensures answers_head { reader.new.answers_head ≡ reader.old.answers_head }
    ensures heads { BringsHead result reader.old.head reader.new.head }
{
    match reader.feed(alloc, window.as_slice()) {
        Ok(fed) => {
            window.advance(fed.used);
            Ok(fed.progress)
        }
        Err(fault) => {
            window.clear();
            Err(fault)
        }
    }
}
