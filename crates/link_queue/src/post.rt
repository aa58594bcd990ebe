//! Those who take links out of the queue and serve them.
ghost use Rattle.std.specs.Prelude.{◌≡◌, [], IsTrue, OnOk, OnErr};
ghost use Rattle.link_queue.specs.Accounts.{with_taken};
ghost use Rattle.link_queue.specs.Serving.{IsShift};

use crate::ledger::{Naming, Share};
use crate::queue::Queue;
use std::sync::Wait;

/// Who serves links.
pub trait Worker<K> {
    /// Of the worker before room was made for a link, and after.
    ghost stays: { Self → Self → Type 0 };

    /// Of the worker before, the link that it served, and the worker after.
    ghost serves: { Self → K → Self → Type 0 };

    /// A link can be served.
    ghost has_room: { Self → Type 0 };

    /// Makes room for what is kept of one more link, and answers whether there is.
    fn make_room(&mut self) -> bool
        ensures stays { stays self.old self.new }
        ensures room { IsTrue result → has_room self.new };

    /// Serves a link to its end.
    fn serve(&mut self, link: K)
        requires { has_room self.old }
        ensures { serves self.old link self.new };
}

/// A worker with its share of the ledger.
#[derive(Drop)]
pub(crate) struct Post<W, K, J: Naming> {
    pub(crate) worker: W,
    pub(crate) share: Share<K, J>,
    ghost alone: { (share.parts ≡ 1) × (share.put ≡ []) },
}

/// Serves a link, if one comes. At `Err` there is none, or no room, for which the queue is closed.
fn serve_one<W: Worker<K>, K, J: Naming, R: Wait>(
    rt: &R,
    queue: &Queue<K, J>,
    worker: &mut W,
    share: &mut Share<K, J>,
) -> Result<(), ()>
    ensures served { OnOk result ((m : W) × (link : K) × W.stays worker.old m × W.serves m link worker.new × (share.new ≡ with_taken share.old link)) }
    ensures end { OnErr result (W.stays worker.old worker.new × (share.new ≡ share.old)) }
{
    if !worker.make_room() {
        queue.close(rt);
        return Err(());
    }
    match queue.take(rt, share) {
        Some(link) => {
            worker.serve(link);
            Ok(())
        }
        None => Err(()),
    }
}

/// Serves links until the queue is closed and empty, or there is no room.
fn serve_until_end<W: Worker<K>, K, J: Naming, R: Wait>(
    rt: &R,
    queue: &Queue<K, J>,
    worker: &mut W,
    share: &mut Share<K, J>,
)
    requires { share.old.taken ≡ [] }
    ensures shift { IsShift W.stays W.serves worker.old share.new.taken worker.new }
    ensures same { (share.new.parts ≡ share.old.parts) × (share.new.put ≡ share.old.put) }
{
    for _ in rt.forever() {
        match serve_one(rt, queue, worker, share) {
            Ok(()) => {}
            Err(()) => return,
        }
    }
    unreachable!()
}

impl<W: Worker<K>, K, J: Naming> Post<W, K, J> {
    /// A worker who has taken nothing.
    pub(crate) fn new(worker: W, share: Share<K, J>) -> Post<W, K, J>
        requires { (share.parts ≡ 1) × (share.put ≡ []) }
        ensures { (result.worker ≡ worker) × (result.share ≡ share) }
    {
        Post { worker, share }
    }

    /// Serves links until the queue is closed and empty, or there is no room.
    pub(crate) fn serve_all<R: Wait>(&mut self, rt: &R, queue: &Queue<K, J>)
        requires { self.old.share.taken ≡ [] }
        ensures { IsShift W.stays W.serves self.old.worker self.new.share.taken self.new.worker }
    {
        let Post { worker, share } = self;
        serve_until_end(rt, queue, worker, share);
    }
}
