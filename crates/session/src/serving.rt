//! Serves a connection.
ghost use Rattle.std.specs.Prelude.{◌≡◌, ◌≤◌, IsTrue};
ghost use Rattle.archive_shelf.specs.Told.{GoesOn};
ghost use Rattle.capture.specs.Faults.{Rose};
ghost use Rattle.outside.specs.Gate.{heard_of};
ghost use Rattle.session.specs.Connection.{IsConnection};

use crate::Served;
use crate::giving_up::give_up;
use crate::heads::closes_after;
use crate::reading::read_request;
use archive_shelf::{Shelf, leading_books_grow};
use capture::{Failed, Memory, Site};
use exchange::Window;
use outside::{Clock, Dialer, Link};
use request_answer::{Ask, answer};
use std::alloc::Global;

/// Serves one connection over an archive: proxied exchanges, each stored before its response is passed on, and the archive's own
/// site. It reads requests one after the other and answers each, up to the answer that closes or to the client's end.
///
/// What it does is said where the client's link and the dialer's links tell their traffic; what of that hangs on the archive's disk,
/// where the disk is told. What holds of the shelf through each of its calls is said of all.
pub fn serve<S: Shelf, L: Link, N: Dialer, C: Clock>(
    alloc: Global,
    shelf: &mut S,
    client: &mut L,
    dialer: &mut N,
    clock: &mut C,
    site: &Site,
) -> Served
    requires no_fault { L.faults client.old ≡ 0 }
    ensures serves { IsTrue L.tells → IsTrue N.Link.tells → IsConnection S.alone (record { site = site.now; clock_tells = C.tells })
        (record { heard = heard_of (L.traffic client.old) (L.faults client.old); answers = C.answers clock.old; links = N.links dialer.old; dialer_faults = N.faults dialer.old; shelf = S.told shelf.old })
        (record { heard = heard_of (L.traffic client.new) (L.faults client.new); answers = C.answers clock.new; links = N.links dialer.new; dialer_faults = N.faults dialer.new; shelf = S.told shelf.new }) result }
    ensures later { L.faults client.old ≤ L.faults client.new }
    ensures broke { result ≡ Served.ClientBroke → Rose (L.faults client.old) (L.faults client.new) }
    ensures goes_on { GoesOn S.alone (S.told shelf.old) (S.told shelf.new) }
    ensures faults { N.faults dialer.old ≤ N.faults dialer.new }
{
    leading_books_grow();
    let mut of_client = match Window::new(alloc) {
        Ok(window) => window,
        Err(Memory) => return give_up(client),
    };
    let mut of_origin = match Window::new(alloc) {
        Ok(window) => window,
        Err(Memory) => return give_up(client),
    };
    let mut served = 0;
    'serving: loop {
        let asked = match read_request(alloc, client, &mut of_client, site) {
            Ok(asked) => asked,
            Err(end) => return end,
        };
        let closes = closes_after(served, &asked.message.head);
        let ask = Ask {
            asked,
            site,
            closes,
        };
        let answer = match answer(alloc, shelf, dialer, clock, &mut of_origin, ask) {
            Ok(answer) => answer,
            Err(Memory) => return give_up(client),
        };
        match answer.say(client) {
            Ok(()) => {}
            Err(Failed) => return Served::ClientBroke,
        }
        let closed = answer.closes();
        drop(answer);
        if closed {
            return Served::Done;
        }
        served += 1;
    }
}
