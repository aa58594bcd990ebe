//! A member of the crew at work.
ghost use Rattle.std.specs.Prelude.{◌≡◌, ◌<◌, [], IsTrue, vec_len};
ghost use Rattle.std.specs.Vec.{vec_capacity};
ghost use Rattle.outside.specs.Link.{IsFresh};
ghost use Rattle.crew.specs.Shifts.{ServesThis, WorksOn, hand_of};

use crate::fresh::Fresh;
use archive_shelf::Shelf;
use capture::Site;
use link_queue::Worker;
use outside::{Clock, Dialer, Gate};
use session::serve;
use std::alloc::Global;

/// One who serves connections over a shelf of its own, with a dialer and a clock of its own. What is kept of those that were served
/// waits to be hung up.
#[derive(Drop)]
pub(crate) struct Member<'a, S, G: Gate, N, C> {
    pub(crate) alloc: Global,
    pub(crate) site: &'a Site,
    pub(crate) shelf: S,
    pub(crate) member: (N, C),
    pub(crate) ended: Vec<G::Past>,
    pub(crate) starved: bool,
}

impl<'a, S: Shelf, G: Gate, N: Dialer, C: Clock> Worker<Fresh<G::Link>> for Member<'a, S, G, N, C> {
    ghost use Rattle.std.specs.Prelude.{◌<◌, ◌&&◌, vec_len};
    ghost use Rattle.std.specs.Vec.{vec_capacity};
    ghost use Rattle.crew.specs.steps.Working.{Rests, ServesNext, desk_of};

    ghost stays = { λ was is. Rests (desk_of N.Dialer C.Clock was) (desk_of N.Dialer C.Clock is) };

    ghost serves = { λ was fresh is. ServesNext S.alone S.told C.tells G.kept (G.Link.tells && N.Link.tells)
        (desk_of N.Dialer C.Clock was) (desk_of N.Dialer C.Clock is) };

    ghost has_room = { λ member. vec_len member.ended < vec_capacity member.ended };

    fn make_room(&mut self) -> bool {
        if make_room_in(&mut self.ended) {
            return true;
        }
        self.starved = true;
        false
    }

    fn serve(&mut self, fresh: Fresh<G::Link>) {
        let Fresh { link } = fresh;
        let Member {
            alloc,
            site,
            shelf,
            member,
            ended,
            starved: _,
        } = self;
        let past = serve_one::<S, G, N, C>(*alloc, site, shelf, member, link);
        ended.push_reserved(past);
    }
}

/// How many connections a list of those that were served has room for, and grows by.
const BLOCK: usize = 1_024;

/// A list of those that were served, with room for the first ones unless that is refused: it is asked for again before the first one.
pub(crate) fn none_ended<P>(alloc: Global) -> Vec<P>
    ensures { result.items ≡ [] }
{
    match Vec::with_capacity(alloc, BLOCK) {
        Ok(ended) => ended,
        Err(_) => Vec::new(alloc),
    }
}

/// Makes room for one more, and answers whether there is. A list grows while half a block is left, so that a growth which is refused is tried again before each
/// connection that takes one of these places.
fn make_room_in<P>(ended: &mut Vec<P>) -> bool
    ensures items { ended.new.items ≡ ended.old.items }
    ensures room { IsTrue result → vec_len ended.new < vec_capacity ended.new }
    ensures succeeds { vec_len ended.old < vec_capacity ended.old → IsTrue result }
{
    let left = ended.capacity() - ended.len();
    if left > BLOCK / 2 {
        return true;
    }
    match ended.reserve(BLOCK) {
        Ok(()) => true,
        Err(_) => left > 0,
    }
}

/// Serves a fresh connection to its end, and answers what is kept of it.
pub(crate) fn serve_one<S: Shelf, G: Gate, N: Dialer, C: Clock>(
    alloc: Global,
    site: &Site,
    shelf: &mut S,
    member: &mut (N, C),
    link: G::Link,
) -> G::Past
    requires fresh { IsTrue G.Link.tells → IsFresh (G.Link.traffic link) }
    requires no_fault { G.Link.faults link ≡ 0 }
    ensures serves { IsTrue G.Link.tells → IsTrue N.Link.tells → ServesThis S.alone S.told (record { site = site.now; clock_tells = C.tells })
        (hand_of N.Dialer C.Clock shelf.old member.old) (G.kept result) (hand_of N.Dialer C.Clock shelf.new member.new) }
    ensures goes_on { WorksOn S.alone S.told (hand_of N.Dialer C.Clock shelf.old member.old) (hand_of N.Dialer C.Clock shelf.new member.new) }
{
    let mut link = link;
    let _served = serve(alloc, shelf, &mut link, &mut member.0, &mut member.1, site);
    G::end(link)
}
