//! What waits, under the queue's lock.
ghost use Rattle.std.specs.Prelude.{◌≡◌, ◌<◌, ◌≤◌, ◌∷◌, ◌++◌, [], false, length, IfSome, IfNone, IfErr, IsOk, OnOk, OnErr};
ghost use Rattle.std.specs.VecDeque.{deque_capacity};
ghost use Rattle.link_queue.specs.Accounts.{with_put, with_taken};
ghost use Rattle.link_queue.specs.declared.waiting.TheConstants.{ROOM};

use crate::ledger::{Ledger, Naming, Share, Store};
use std::collections::VecDeque;

/// For how many links that wait a queue has room from its beginning: a growth that is refused would end who accepts.
pub const ROOM: usize = 256;

/// The links that wait, the first that was put first.
#[derive(Drop)]
pub(crate) struct Waiting<K, J: Naming> {
    pub(crate) links: VecDeque<K>,
    pub(crate) closed: bool,
    pub(crate) store: Store<K, J>,
    ghost kept: { store ≡ links.items },
    ghost room: { ROOM ≤ deque_capacity links },
}

impl<K, J: Naming> Waiting<K, J> {
    /// Nothing, in this room.
    pub(crate) fn new(links: VecDeque<K>, store: Store<K, J>) -> Waiting<K, J>
        requires none { links.items ≡ [] }
        requires room { ROOM ≤ deque_capacity links }
        requires store { store ≡ [] }
    {
        Waiting {
            links,
            closed: false,
            store,
        }
    }

    /// Puts a link behind the others. It comes back where the queue is closed, or where `ROOM` of them wait and there is no memory.
    pub(crate) fn put(
        &mut self,
        ledger: &Ledger<K, J>,
        share: &mut Share<K, J>,
        link: K,
    ) -> Result<(), K>
        ensures links { OnOk result (self.new.links.items ≡ self.old.links.items ++ link ∷ []) }
        ensures kept { OnErr result (self.new.links.items ≡ self.old.links.items) }
        ensures share { OnOk result (share.new ≡ with_put share.old link) }
        ensures same { OnErr result (share.new ≡ share.old) }
        ensures back { IfErr result (λ given. given ≡ link) }
        ensures succeeds { self.old.closed ≡ false → length self.old.links.items < ROOM → IsOk result }
    {
        let Waiting {
            links,
            closed,
            store,
        } = self;
        if *closed {
            return Err(link);
        }
        if links.reserve(1).is_err() {
            return Err(link);
        }
        ledger.put(share, store, &link);
        links.push_back_reserved(link);
        Ok(())
    }

    /// Takes the first link.
    pub(crate) fn take(&mut self, ledger: &Ledger<K, J>, share: &mut Share<K, J>) -> Option<K>
        ensures link { IfSome result (λ link. self.old.links.items ≡ link ∷ self.new.links.items) }
        ensures taken { IfSome result (λ link. share.new ≡ with_taken share.old link) }
        ensures none { IfNone result (self.old.links.items ≡ []) }
        ensures same { IfNone result (share.new ≡ share.old) }
    {
        let Waiting {
            links,
            closed: _,
            store,
        } = self;
        match links.pop_front() {
            Some(link) => {
                ledger.take(share, store);
                Some(link)
            }
            None => None,
        }
    }
}
