//! The queue between one who puts links into it and those who take them.
ghost use Rattle.std.specs.Prelude.{◌≡◌, ◌+◌, ◌-◌, ◌<◌, ◌≤◌, [], IfSome, IfNone, IfErr, OnOk, OnErr, length};
ghost use Rattle.link_queue.specs.Accounts.{all_parts, newcomer, merged, with_put, with_taken, IsWhole};

use crate::ledger::{Blank, Ledger, Naming, Share};
use crate::waiting::{ROOM, Waiting};
use std::alloc::{AllocError, Global};
use std::collections::VecDeque;
use std::marker::Model;
use std::sync::{Condvar, Mutex, Wait};

/// An empty queue, whose ledger has no name yet. A contract sees which ledger it is.
#[derive(Drop)]
pub struct Unnamed<K> {
    links: VecDeque<K>,
    blank: Blank<K>,
}

impl<K> Model for Unnamed<K> {
    ghost use Rattle.std.specs.Prelude.{◌≡◌, ◌≤◌, []};
    ghost use Rattle.std.specs.VecDeque.{deque_capacity};
    ghost use Rattle.link_queue.specs.Accounts.{LedgerId};
    ghost use Rattle.link_queue.specs.declared.waiting.TheConstants.{ROOM};

    ghost Value = { LedgerId };

    ghost view = { λ q. q.blank };

    ghost invariant = { λ q. (q.links.items ≡ []) × (ROOM ≤ deque_capacity q.links) };
}

impl<K> Unnamed<K> {
    /// An empty queue with room for `ROOM` links, or there was no memory.
    pub fn new(alloc: Global) -> Result<Unnamed<K>, AllocError> {
        let links = VecDeque::with_capacity(alloc, ROOM)?;
        match Blank::new(alloc) {
            Ok(blank) => Ok(Unnamed { links, blank }),
            Err(error) => {
                links.destroy_empty();
                Err(error)
            }
        }
    }

    /// The queue under a name, and a share with all parts of its ledger but one, which the queue keeps.
    pub fn named<J: Naming>(self) -> (Queue<K, J>, Share<K, J>)
        requires { self ≡ J.ledger }
        ensures { result.1 ≡ record newcomer { parts = all_parts - 1 } }
    {
        let Unnamed { links, blank } = self;
        let (ledger, store, share) = blank.named();
        let queue = Queue {
            ledger,
            waiting: Mutex::new(Waiting::new(links, store)),
            moved: Condvar::new(),
        };
        (queue, share)
    }
}

/// Links that wait between one who puts them and those who take them.
#[derive(Drop)]
pub struct Queue<K, J: Naming> {
    ledger: Ledger<K, J>,
    waiting: Mutex<Waiting<K, J>>,
    moved: Condvar,
}

impl<K, J: Naming> Queue<K, J> {
    /// A share of one part, cut off from another.
    pub fn cut(&self, share: &mut Share<K, J>) -> Share<K, J>
        requires { 1 < share.old.parts }
        ensures cut { result ≡ newcomer }
        ensures rest { share.new ≡ record share.old { parts = share.old.parts - 1 } }
    {
        self.ledger.cut(share)
    }

    /// Makes one share of two.
    pub fn merge(&self, share: &mut Share<K, J>, other: Share<K, J>)
        ensures { share.new ≡ merged share.old other }
    {
        self.ledger.merge(share, other);
    }

    /// Puts a link behind the others, and wakes one who waits. The link comes back where the queue is closed, or where `ROOM` of them
    /// wait and there is no memory. May wait for the lock.
    pub fn put<R: Wait>(&self, rt: &R, share: &mut Share<K, J>, link: K) -> Result<(), K>
        ensures put { OnOk result (share.new ≡ with_put share.old link) }
        ensures same { OnErr result (share.new ≡ share.old) }
        ensures back { IfErr result (λ given. given ≡ link) }
    {
        let answer = self.waiting.lock(rt).put(&self.ledger, share, link);
        self.moved.notify_one();
        answer
    }

    /// The first link, for which it waits. None where the queue is closed and nothing waits.
    pub fn take<R: Wait>(&self, rt: &R, share: &mut Share<K, J>) -> Option<K>
        ensures taken { IfSome result (λ link. share.new ≡ with_taken share.old link) }
        ensures same { IfNone result (share.new ≡ share.old) }
    {
        let mut waiting = self.moved.wait_while(rt, self.waiting.lock(rt), |w| {
            w.links.is_empty() && !w.closed
        });
        waiting.take(&self.ledger, share)
    }

    /// Closes the queue: nothing more is put, and nobody waits any more. May wait for the lock.
    pub fn close<R: Wait>(&self, rt: &R) {
        self.waiting.lock(rt).closed = true;
        self.moved.notify_all();
    }
}

impl<K: Drop, J: Naming> Queue<K, J> {
    /// Ends the queue, and gives out the links that are left, the first that was put first. Who has all other parts of the ledger
    /// knows that each link that was put was taken or is left.
    pub fn end(self, share: Share<K, J>) -> VecDeque<K>
        requires { share.parts ≡ all_parts - 1 }
        ensures whole { IsWhole share.put share.taken result.items }
        ensures count { length share.put ≡ length share.taken + length result.items }
    {
        let Queue {
            ledger,
            waiting,
            moved: _moved,
        } = self;
        let Waiting {
            links,
            closed: _,
            store,
        } = waiting.into_inner();
        ledger.audit(share, store);
        links
    }
}
