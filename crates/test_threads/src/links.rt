//! One who accepts beside those who serve. No case can say it: a case has one thread.
ghost use Rattle.std.specs.Prelude.{◌≡◌, ◌<◌, vec_len};
ghost use Rattle.std.specs.Vec.{vec_capacity};

use link_queue::{Acceptor, Served, Worker, serve_beside};
use std::alloc::Global;
use std::process::Abort;
use std::sync::Wait;
use std::sync::atomic::{AtomicU64, Ordering};
use std::test::*;
use std::thread;
use std::thread::Threads;
use std::time::{Clock, Duration};

// Waits until so many links have begun to be served, for ten seconds at most.
fn has_begun<R: Clock + Wait>(rt: &R, begun: &AtomicU64, count: u64) -> bool {
    for _ in 0..10_000 {
        if begun.load(Ordering::SeqCst) >= count {
            return true;
        }
        thread::sleep(rt, Duration::from_millis(1));
    }
    false
}

// Gives so many links. In step, each waits until those before it have begun to be served.
#[derive(Drop)]
struct Giving<'a, R> {
    rt: &'a R,
    begun: &'a AtomicU64,
    next: u64,
    count: u64,
    in_step: bool,
}

impl<'a, R: Clock + Wait> Acceptor<u64> for Giving<'a, R> {
    ghost accepts = { λ before answer after. Unit {0} };

    fn accept(&mut self) -> Option<u64> {
        let wanted = if self.in_step { self.next } else { 0 };
        if self.next >= self.count || !has_begun(self.rt, self.begun, wanted) {
            return None;
        }
        let link = self.next;
        self.next = link.saturating_add(1);
        Some(link)
    }
}

// Keeps a link once so many have begun to be served, itself among them.
#[derive(Drop)]
struct Keeping<'a, R> {
    rt: &'a R,
    begun: &'a AtomicU64,
    company: u64,
    kept: Vec<u64>,
}

impl<'a, R: Clock + Wait> Worker<u64> for Keeping<'a, R> {
    ghost stays = { λ before after. Unit {0} };

    ghost serves = { λ before link after. Unit {0} };

    ghost has_room = { λ worker. vec_len worker.kept < vec_capacity worker.kept };

    fn make_room(&mut self) -> bool {
        self.kept.reserve(1).is_ok()
    }

    fn serve(&mut self, link: u64) {
        self.begun.fetch_add(1, Ordering::SeqCst);
        if has_begun(self.rt, self.begun, self.company) {
            self.kept.push_reserved(link);
        }
    }
}

// How many of the links were kept.
fn kept_of<R: Threads + Clock + Wait + Abort + Sync>(
    rt: &R,
    alloc: Global,
    links: u64,
    workers: u32,
    company: u64,
    in_step: bool,
) -> u64 {
    let begun = AtomicU64::new(0);
    let Ok(mut crew) = Vec::with_capacity(alloc, workers as usize) else {
        panic!(rt; "no memory")
    };
    'making: while crew.len() < workers as usize {
        crew.push_reserved(Keeping {
            rt,
            begun: &begun,
            company,
            kept: Vec::new(alloc),
        });
    }
    let acceptor = Giving {
        rt,
        begun: &begun,
        next: 0,
        count: links,
        in_step,
    };
    let Ok(served) = serve_beside(rt, alloc, acceptor, crew) else {
        panic!(rt; "no memory")
    };
    let Served {
        acceptor: _acceptor,
        workers: crew,
        refused,
        left,
    } = served;
    assert!(rt; refused == None);
    assert!(rt; left.is_empty());
    kept_by(crew.as_slice())
}

fn kept_by<R>(crew: &[Keeping<R>]) -> u64 {
    let mut count: u64 = 0;
    for worker in crew {
        count = count.saturating_add(worker.kept.len() as u64);
    }
    count
}

#[test]
fn a_link_is_served_while_the_next_is_awaited(rt: HostRuntime) -> Result<(), Fail> {
    assert!(&rt; kept_of(&rt, rt.alloc(), 3, 1, 0, true) == 3);
    Ok(())
}

#[test]
fn two_workers_serve_at_once(rt: HostRuntime) -> Result<(), Fail> {
    assert!(&rt; kept_of(&rt, rt.alloc(), 2, 2, 2, false) == 2);
    Ok(())
}

#[test]
fn closing_ends_all_who_wait(rt: HostRuntime) -> Result<(), Fail> {
    assert!(&rt; kept_of(&rt, rt.alloc(), 0, 4, 0, false) == 0);
    Ok(())
}
