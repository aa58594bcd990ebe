//! One who accepts links beside those who serve them.
ghost use Rattle.std.specs.Prelude.{◌≡◌, ◌+◌, ◌<◌, ◌≤◌, ◌^◌, [], ◌++◌, ℕ, None, IfOk, IfErr, IfSome, map, length, slice_get, vec_len};
ghost use Rattle.std.specs.Vec.{vec_capacity};
ghost use Rattle.std.specs.List.{All};
ghost use Rattle.link_queue.specs.Serving.{all_of, HasAccepted, IsShift, AreShifts, HasServed};

use crate::accepting::{Accepting, Acceptor};
use crate::beside::side_by_side;
use crate::ledger::{Naming, Share};
use crate::post::{Post, Worker};
use crate::queue::{Queue, Unnamed};
use std::alloc::Global;
use std::collections::VecDeque;
use std::marker::Brand;
use std::sync::Wait;
use std::thread::{Threads, for_each_mut};

/// What came of the links that were accepted.
#[derive(Drop)]
pub struct Served<A, W, K> {
    pub acceptor: A,
    pub workers: Vec<W>,
    /// The link that was accepted last, where the queue refused it.
    pub refused: Option<K>,
    /// The links that nobody took, the first that was put first.
    pub left: VecDeque<K>,
}

/// There was no memory, and nothing was accepted.
#[derive(Drop)]
pub struct Unserved<A, W> {
    pub acceptor: A,
    pub workers: Vec<W>,
}

/// A post for each worker, in their order.
fn make_posts<W: Worker<K>, K, J: Naming>(
    queue: &Queue<K, J>,
    workers: Vec<W>,
    all: &mut Share<K, J>,
    posts: &mut Vec<Post<W, K, J>>,
)
    requires parts { vec_len workers < all.old.parts }
    requires none { posts.old.items ≡ [] }
    requires room { vec_len workers ≤ vec_capacity posts.old }
    ensures workers { map (λ p. p.worker) posts.new.items ≡ workers.items }
    ensures count { vec_len posts.new ≡ vec_len workers }
    ensures idle { All (λ p. p.share.taken ≡ []) posts.new.items }
    ensures parts { all.new.parts + vec_len workers ≡ all.old.parts }
    ensures same { (all.new.put ≡ all.old.put) × (all.new.taken ≡ all.old.taken) }
{
    let mut rest = workers.into_iter();
    'making: while let Some(worker) = rest.next() {
        posts.push_reserved(Post::new(worker, queue.cut(all)));
    }
    rest.destroy_empty();
}

/// The workers, in the order of their posts, and their shares.
fn gather<W: Worker<K>, K, J: Naming>(
    queue: &Queue<K, J>,
    posts: Vec<Post<W, K, J>>,
    all: &mut Share<K, J>,
    workers: &mut Vec<W>,
)
    requires none { workers.old.items ≡ [] }
    requires room { vec_len posts ≤ vec_capacity workers.old }
    ensures workers { workers.new.items ≡ map (λ p. p.worker) posts.items }
    ensures parts { all.new.parts ≡ all.old.parts + vec_len posts }
    ensures put { all.new.put ≡ all.old.put }
    ensures taken { all.new.taken ≡ all.old.taken ++ all_of (map (λ p. p.share.taken) posts.items) }
{
    let mut rest = posts.into_iter();
    'gathering: while let Some(post) = rest.next() {
        let Post { worker, share } = post;
        queue.merge(all, share);
        workers.push_reserved(worker);
    }
    rest.destroy_empty();
}

/// All workers serve, each in a thread of its own where threads can be made.
fn work_each<W: Worker<K> + Send, K: Send, J: Naming + Send + Sync, R: Threads + Wait + Sync>(
    rt: &R,
    queue: &Queue<K, J>,
    posts: &mut [Post<W, K, J>],
)
    requires some { 0 < length posts.old }
    requires idle { All (λ p. p.share.taken ≡ []) posts.old }
    ensures count { length posts.new ≡ length posts.old }
    ensures each { (i : ℕ) → IfSome (slice_get posts.old i) (λ p. IfSome (slice_get posts.new i) (λ q. IsShift W.stays W.serves p.worker q.share.taken q.worker)) }
{
    let count = posts.len();
    for_each_mut(rt, posts, count, &|_, post| post.serve_all(rt, queue));
}

/// All workers serve, if there are any.
fn work_all<W: Worker<K> + Send, K: Send, J: Naming + Send + Sync, R: Threads + Wait + Sync>(
    rt: &R,
    queue: &Queue<K, J>,
    posts: &mut Vec<Post<W, K, J>>,
)
    requires idle { All (λ p. p.share.taken ≡ []) posts.old.items }
    ensures count { vec_len posts.new ≡ vec_len posts.old }
    ensures shifts { AreShifts W.stays W.serves (map (λ p. p.worker) posts.old.items) (map (λ p. p.share.taken) posts.new.items) (map (λ p. p.worker) posts.new.items) }
{
    if posts.len() == 0 {
        return;
    }
    work_each(rt, queue, posts.as_mut_slice());
}

/// One accepts beside those who serve.
fn both<
    A: Acceptor<K> + Send,
    W: Worker<K> + Send,
    K: Send,
    J: Naming + Send + Sync,
    R: Threads + Wait + Sync,
>(rt: &R, queue: &Queue<K, J>, accepting: &mut Accepting<A, K, J>, posts: &mut Vec<Post<W, K, J>>)
    requires nothing { accepting.old.share.put ≡ [] }
    requires nobody { accepting.old.refused ≡ None }
    requires idle { All (λ p. p.share.taken ≡ []) posts.old.items }
    ensures accepted { HasAccepted A.accepts accepting.old.acceptor accepting.new.share.put accepting.new.refused accepting.new.acceptor }
    ensures same { (accepting.new.share.parts ≡ accepting.old.share.parts) × (accepting.new.share.taken ≡ accepting.old.share.taken) }
    ensures count { vec_len posts.new ≡ vec_len posts.old }
    ensures shifts { AreShifts W.stays W.serves (map (λ p. p.worker) posts.old.items) (map (λ p. p.share.taken) posts.new.items) (map (λ p. p.worker) posts.new.items) }
{
    let work = |_: usize, posts: &mut Vec<Post<W, K, J>>|
        requires idle { All (λ p. p.share.taken ≡ []) posts.old.items }
        ensures count { vec_len posts.new ≡ vec_len posts.old }
        ensures shifts { AreShifts W.stays W.serves (map (λ p. p.worker) posts.old.items) (map (λ p. p.share.taken) posts.new.items) (map (λ p. p.worker) posts.new.items) }
    { work_all(rt, queue, posts) };
    let accept = |_: usize, accepting: &mut Accepting<A, K, J>|
        requires nothing { accepting.old.share.put ≡ [] }
        requires nobody { accepting.old.refused ≡ None }
        ensures accepted { HasAccepted A.accepts accepting.old.acceptor accepting.new.share.put accepting.new.refused accepting.new.acceptor }
        ensures same { (accepting.new.share.parts ≡ accepting.old.share.parts) × (accepting.new.share.taken ≡ accepting.old.share.taken) }
    { accepting.accept_all(rt, queue) };
    side_by_side(rt, &work, &accept, posts, accepting);
}

/// Serves under a name of the ledger.
fn serve_under<
    A: Acceptor<K> + Send,
    W: Worker<K> + Send,
    K: Send + Drop,
    J: Naming + Send + Sync,
    R: Threads + Wait + Sync,
>(
    rt: &R,
    alloc: Global,
    unnamed: Unnamed<K>,
    acceptor: A,
    workers: Vec<W>,
) -> Result<Served<A, W, K>, Unserved<A, W>>
    requires name { unnamed ≡ J.ledger }
    requires few { vec_len workers < 2 ^ 32 }
    ensures served { IfOk result (λ s. HasServed A.accepts W.stays W.serves acceptor s.acceptor workers.items s.workers.items s.refused s.left.items) }
    ensures unserved { IfErr result (λ u. (u.acceptor ≡ acceptor) × (u.workers.items ≡ workers.items)) }
{
    let count = workers.len();
    let Ok(mut posts) = Vec::with_capacity(alloc, count) else {
        return Err(Unserved { acceptor, workers });
    };
    let Ok(mut ended) = Vec::with_capacity(alloc, count) else {
        posts.destroy_empty();
        return Err(Unserved { acceptor, workers });
    };
    let (queue, mut all) = unnamed.named::<J>();
    make_posts(&queue, workers, &mut all, &mut posts);
    let mut accepting = Accepting {
        acceptor,
        share: all,
        refused: None,
    };
    both(rt, &queue, &mut accepting, &mut posts);
    let Accepting {
        acceptor,
        share: mut all,
        refused,
    } = accepting;
    gather(&queue, posts, &mut all, &mut ended);
    let left = queue.end(all);
    Ok(Served {
        acceptor,
        workers: ended,
        refused,
        left,
    })
}

/// Accepts links in this thread, and serves them by all workers, each in a thread of its own, until no more are accepted or the queue
/// has no memory or is closed by a worker without room. May wait.
///
/// Where no thread can be made, all is accepted first, and the first worker then serves it.
pub fn serve_beside<
    A: Acceptor<K> + Send,
    W: Worker<K> + Send,
    K: Send + Drop,
    R: Threads + Wait + Sync,
>(rt: &R, alloc: Global, acceptor: A, workers: Vec<W>) -> Result<Served<A, W, K>, Unserved<A, W>>
    requires { vec_len workers < 2 ^ 32 }
    ensures served { IfOk result (λ s. HasServed A.accepts W.stays W.serves acceptor s.acceptor workers.items s.workers.items s.refused s.left.items) }
    ensures unserved { IfErr result (λ u. (u.acceptor ≡ acceptor) × (u.workers.items ≡ workers.items)) }
{
    let Ok(unnamed) = Unnamed::new(alloc) else {
        return Err(Unserved { acceptor, workers });
    };
    serve_under::<A, W, K, Brand, R>(rt, alloc, unnamed, acceptor, workers)
}
