//! One who accepts links, and puts them into the queue.
ghost use Rattle.std.specs.Prelude.{◌≡◌, [], Option, Some, None, OnOk, IfErr};
ghost use Rattle.link_queue.specs.Accounts.{with_put};
ghost use Rattle.link_queue.specs.Serving.{Accepts, HasAccepted};

use crate::ledger::{Naming, Share};
use crate::queue::Queue;
use std::mem;
use std::sync::Wait;

/// Who accepts links.
pub trait Acceptor<K> {
    /// Of the acceptor before, its answer, and the acceptor after.
    ghost accepts: { Self → Option K → Self → Type 0 };

    /// The next link, or none where no more are to be accepted.
    fn accept(&mut self) -> Option<K>
        ensures { accepts self.old result self.new };
}

/// The one who accepts, its share of the ledger, and a link that the queue refused.
#[derive(Drop)]
pub(crate) struct Accepting<A, K, J: Naming> {
    pub(crate) acceptor: A,
    pub(crate) share: Share<K, J>,
    pub(crate) refused: Option<K>,
}

/// Accepts a link and puts it into the queue. At `Err` there is no more, or one that the queue refused.
fn accept_one<A: Acceptor<K>, K, J: Naming, R: Wait>(
    rt: &R,
    queue: &Queue<K, J>,
    acceptor: &mut A,
    share: &mut Share<K, J>,
) -> Result<(), Option<K>>
    ensures put { OnOk result ((link : K) × A.accepts acceptor.old (Some link) acceptor.new × (share.new ≡ with_put share.old link)) }
    ensures end { IfErr result (λ last. A.accepts acceptor.old last acceptor.new × (share.new ≡ share.old)) }
{
    match acceptor.accept() {
        Some(link) => match queue.put(rt, share, link) {
            Ok(()) => Ok(()),
            Err(link) => Err(Some(link)),
        },
        None => Err(None),
    }
}

/// Accepts links and puts them into the queue, until there are no more or the queue refuses one, which comes back.
fn accept_until_end<A: Acceptor<K>, K, J: Naming, R: Wait>(
    rt: &R,
    queue: &Queue<K, J>,
    acceptor: &mut A,
    share: &mut Share<K, J>,
) -> Option<K>
    requires { share.old.put ≡ [] }
    ensures accepted { HasAccepted A.accepts acceptor.old share.new.put result acceptor.new }
    ensures same { (share.new.parts ≡ share.old.parts) × (share.new.taken ≡ share.old.taken) }
{
    for _ in rt.forever() {
        match accept_one(rt, queue, acceptor, share) {
            Ok(()) => {}
            Err(last) => return last,
        }
    }
    unreachable!()
}

impl<A: Acceptor<K>, K, J: Naming> Accepting<A, K, J> {
    /// Accepts links until there are no more or the queue refuses one, and closes the queue.
    pub(crate) fn accept_all<R: Wait>(&mut self, rt: &R, queue: &Queue<K, J>)
        requires nothing { self.old.share.put ≡ [] }
        requires nobody { self.old.refused ≡ None }
        ensures accepted { HasAccepted A.accepts self.old.acceptor self.new.share.put self.new.refused self.new.acceptor }
        ensures same { (self.new.share.parts ≡ self.old.share.parts) × (self.new.share.taken ≡ self.old.share.taken) }
    {
        let Accepting {
            acceptor,
            share,
            refused,
        } = self;
        let last = accept_until_end(rt, queue, acceptor, share);
        queue.close(rt);
        let nobody = mem::replace(refused, last);
        let None = nobody else { unreachable!() };
    }
}
